//! The DUs of both gNBs, by their names.

ghost use Rattle.std.specs.Prelude.{◌≡◌, [], None, OnOk, IfOk};
ghost use Rattle.gnb_types.specs.Orders.{node_cmp, ue_cmp};
ghost use Rattle.gnb_types.specs.declared.names.NodeId.TheVariants.{Du};
ghost use Rattle.tables.specs.Tables.{find, put, map_values};
ghost use Rattle.unit_defs.specs.octet_defs.Units.{du_steps};
ghost use Rattle.unit_messages.specs.steps.Steps.{step_after};
ghost use Rattle.du_node.specs.Nodes.{new_node};
ghost use Rattle.site.specs.site_tables.Each.{each_at, one_at};
ghost use Rattle.site.specs.site_tables.Steps.{Steps};
ghost use Rattle.site.specs.site_tables.Nodes.{node_kind, node_at, first_nodes, PlacesNode, as_set_up};

use crate::site_tables::names::{keep, keys_in};
use du_node::DuNode;
use gnb_types::inputs::Input;
use gnb_types::items::Memory;
use gnb_types::names::{Gnb, NodeId};
use gnb_types::outputs::Outputs;
use gnb_types::plans::Plan;
use std::alloc::Global;
use tables::table::Table;
use unit_messages::lawful_codecs::LawfulCodec;
use unit_messages::steps::StepError;

pub type Nodes = Table<NodeId, DuNode>;

/// One more DU, as it is at first.
fn add(nodes: &mut Nodes, alloc: Global, gnb: Gnb, number: u8) -> Result<(), Memory>
    ensures { OnOk result (nodes.new ≡ put node_cmp nodes.old (Du gnb number) (new_node gnb number)) }
{
    let node = DuNode::new(alloc, gnb, number);
    drop(nodes.put(NodeId::Du(gnb, number), node)?);
    Ok(())
}

/// The DUs as they are at first.
pub fn first_nodes(alloc: Global) -> Result<Nodes, Memory>
    ensures { IfOk result (λ nodes. nodes ≡ first_nodes) }
{
    let mut nodes = Table::new(alloc);
    add(&mut nodes, alloc, Gnb::A, 1)?;
    add(&mut nodes, alloc, Gnb::A, 2)?;
    add(&mut nodes, alloc, Gnb::B, 1)?;
    add(&mut nodes, alloc, Gnb::B, 2)?;
    Ok(nodes)
}

// ---- steps

/// One step of the DU of this name. One that isn't there begins with it.
pub fn step<C: LawfulCodec>(
    nodes: &mut Nodes,
    alloc: Global,
    codec: &C,
    gnb: Gnb,
    number: u8,
    input: &Input,
) -> Result<Outputs, StepError>
    requires { (node_at nodes.old gnb number).failure ≡ None }
    ensures { Steps node_kind
        (step_after [] (du_steps C.codec (node_at nodes.old gnb number).du input.now))
        (put node_cmp nodes.old (Du gnb number)) nodes.new result }
{
    let Some(node) = nodes.get_mut(&NodeId::Du(gnb, number)) else {
        return step_first(nodes, alloc, codec, gnb, number, input);
    };
    node.step(alloc, codec, input)
}

/// The first step of a DU that isn't there yet.
fn step_first<C: LawfulCodec>(
    nodes: &mut Nodes,
    alloc: Global,
    codec: &C,
    gnb: Gnb,
    number: u8,
    input: &Input,
) -> Result<Outputs, StepError>
    requires { find node_cmp nodes.old (Du gnb number) ≡ None }
    ensures { Steps node_kind
        (step_after [] (du_steps C.codec (node_at nodes.old gnb number).du input.now))
        (put node_cmp nodes.old (Du gnb number)) nodes.new result }
{
    let mut node = DuNode::new(alloc, gnb, number);
    match node.step(alloc, codec, input) {
        Ok(outputs) => keep(nodes, NodeId::Du(gnb, number), node, outputs),
        Err(error) => {
            drop(node);
            Err(error)
        }
    }
}

// ---- terminals that are set up without messages

/// The TEID that the DU of this name gives next.
#[tactic(auto, unfolding(tables::specs::Tables::at))]
pub fn next_teid(nodes: &Nodes, gnb: Gnb, number: u8) -> u32
    ensures { result ≡ (node_at nodes.now gnb number).du.next_teid }
{
    match nodes.get(&NodeId::Du(gnb, number)) {
        Some(node) => node.next_teid(),
        None => 1,
    }
}

/// A terminal without a context gets the one of its plan.
pub fn place(nodes: &mut Nodes, alloc: Global, plan: Plan, uplink: u32) -> Result<(), StepError>
    requires works { (node_at nodes.old plan.gnb plan.du).failure ≡ None }
    requires new { find ue_cmp (node_at nodes.old plan.gnb plan.du).du.contexts plan.ue ≡ None }
    ensures { PlacesNode plan uplink nodes.old nodes.new result }
{
    let Some(node) = nodes.get_mut(&NodeId::Du(plan.gnb, plan.du)) else {
        return place_first(nodes, alloc, plan, uplink);
    };
    node.place_static(alloc, plan, uplink)
}

/// The same at a DU that isn't there yet.
fn place_first(nodes: &mut Nodes, alloc: Global, plan: Plan, uplink: u32) -> Result<(), StepError>
    requires { find node_cmp nodes.old (Du plan.gnb plan.du) ≡ None }
    ensures { PlacesNode plan uplink nodes.old nodes.new result }
{
    let mut node = DuNode::new(alloc, plan.gnb, plan.du);
    match node.place_static(alloc, plan, uplink) {
        Ok(()) => keep(nodes, NodeId::Du(plan.gnb, plan.du), node, ()),
        Err(error) => {
            drop(node);
            Err(error)
        }
    }
}

/// All DUs count as set up.
pub fn mark_set_up(nodes: &mut Nodes, alloc: Global) -> Result<(), Memory>
    ensures { OnOk result (nodes.new ≡ map_values as_set_up nodes.old) }
{
    let names = keys_in(nodes, alloc)?;
    mark_each(nodes, names.as_slice());
    Ok(())
}

/// Those of these names count as set up.
fn mark_each(nodes: &mut Nodes, names: &[NodeId])
    ensures { nodes.new ≡ each_at node_cmp as_set_up names.now nodes.old }
{
    for name in names {
        mark(nodes, *name);
    }
}

fn mark(nodes: &mut Nodes, name: NodeId)
    ensures { nodes.new ≡ one_at node_cmp as_set_up nodes.old name (find node_cmp nodes.old name) }
{
    if let Some(node) = nodes.get_mut(&name) {
        node.mark_set_up();
    }
}
