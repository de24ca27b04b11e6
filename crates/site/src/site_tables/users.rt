//! The CU-UPs of both gNBs, by their names.

ghost use Rattle.std.specs.Prelude.{◌≡◌, ◌≤◌, [], None, OnOk, IfOk, IfErr};
ghost use Rattle.std.specs.List.{list_all};
ghost use Rattle.gnb_types.specs.Orders.{node_cmp, ue_cmp};
ghost use Rattle.gnb_types.specs.declared.names.NodeId.TheVariants.{CuUp};
ghost use Rattle.tables.specs.Tables.{find, put, map_values};
ghost use Rattle.unit_defs.specs.Accessors.{cu_up_rests};
ghost use Rattle.unit_defs.specs.octet_defs.Units.{cu_up_steps};
ghost use Rattle.unit_messages.specs.steps.Steps.{step_after};
ghost use Rattle.unit_messages.specs.declared.steps.StepError.TheVariants as step_errors;
ghost use Rattle.cu_user.specs.Users.{new_user};
ghost use Rattle.cu_up_contexts.specs.declared.contexts.placing.PlaceError.TheVariants as errors;
ghost use Rattle.site.specs.site_tables.Each.{each_at, one_at};
ghost use Rattle.site.specs.site_tables.Steps.{Steps};
ghost use Rattle.site.specs.site_tables.Users.{user_kind, user_at, first_users, PlacesUser, as_set_up};

use crate::site_tables::names::{keep, keys_in};
use cu_user::{CuUser, PlaceError};
use gnb_types::inputs::Input;
use gnb_types::items::Memory;
use gnb_types::names::{BearerId, Gnb, NodeId, UeId};
use gnb_types::outputs::Outputs;
use gnb_types::plans::Plan;
use std::alloc::Global;
use tables::table::Table;
use unit_messages::lawful_codecs::LawfulCodec;
use unit_messages::steps::StepError;

pub type Users = Table<NodeId, CuUser>;

/// One more CU-UP, as it is at first.
fn add(users: &mut Users, alloc: Global, gnb: Gnb, number: u8) -> Result<(), Memory>
    ensures { OnOk result (users.new ≡ put node_cmp users.old (CuUp gnb number) (new_user gnb number)) }
{
    let user = CuUser::new(alloc, gnb, number);
    drop(users.put(NodeId::CuUp(gnb, number), user)?);
    Ok(())
}

/// The CU-UPs as they are at first.
pub fn first_users(alloc: Global) -> Result<Users, Memory>
    ensures { IfOk result (λ users. users ≡ first_users) }
{
    let mut users = Table::new(alloc);
    add(&mut users, alloc, Gnb::A, 1)?;
    add(&mut users, alloc, Gnb::A, 2)?;
    add(&mut users, alloc, Gnb::B, 1)?;
    add(&mut users, alloc, Gnb::B, 2)?;
    Ok(users)
}

// ---- steps

/// One step of the CU-UP of this name. One that isn't there begins with it.
pub fn step<C: LawfulCodec>(
    users: &mut Users,
    alloc: Global,
    codec: &C,
    gnb: Gnb,
    number: u8,
    input: &Input,
) -> Result<Outputs, StepError>
    requires { (user_at users.old gnb number).failure ≡ None }
    ensures { Steps user_kind
        (step_after [] (cu_up_steps C.codec (user_at users.old gnb number).up input.now))
        (put node_cmp users.old (CuUp gnb number)) users.new result }
{
    let Some(user) = users.get_mut(&NodeId::CuUp(gnb, number)) else {
        return step_first(users, alloc, codec, gnb, number, input);
    };
    user.step(alloc, codec, input)
}

/// The first step of a CU-UP that isn't there yet.
fn step_first<C: LawfulCodec>(
    users: &mut Users,
    alloc: Global,
    codec: &C,
    gnb: Gnb,
    number: u8,
    input: &Input,
) -> Result<Outputs, StepError>
    requires { find node_cmp users.old (CuUp gnb number) ≡ None }
    ensures { Steps user_kind
        (step_after [] (cu_up_steps C.codec (user_at users.old gnb number).up input.now))
        (put node_cmp users.old (CuUp gnb number)) users.new result }
{
    let mut user = CuUser::new(alloc, gnb, number);
    match user.step(alloc, codec, input) {
        Ok(outputs) => keep(users, NodeId::CuUp(gnb, number), user, outputs),
        Err(error) => {
            drop(user);
            Err(error)
        }
    }
}

// ---- terminals that are set up without messages

/// The TEID that the CU-UP of this name gives next.
#[tactic(auto, unfolding(tables::specs::Tables::at))]
pub fn next_teid(users: &Users, gnb: Gnb, number: u8) -> u32
    ensures { result ≡ (user_at users.now gnb number).up.next_teid }
{
    match users.get(&NodeId::CuUp(gnb, number)) {
        Some(user) => user.next_teid(),
        None => 1,
    }
}

/// A terminal without a context gets the one of its plan.
pub fn place(users: &mut Users, alloc: Global, plan: Plan, downlink: u32) -> Result<(), PlaceError>
    requires works { (user_at users.old plan.gnb plan.up).failure ≡ None }
    requires new { find ue_cmp (user_at users.old plan.gnb plan.up).up.contexts plan.ue ≡ None }
    requires few { plan.bearers ≤ 8 }
    requires least { 4 ≤ plan.quota }
    requires most { plan.quota ≤ 4096 }
    ensures { PlacesUser plan downlink users.old users.new result }
{
    let Some(user) = users.get_mut(&NodeId::CuUp(plan.gnb, plan.up)) else {
        return place_first(users, alloc, plan, downlink);
    };
    user.place_static(alloc, plan, downlink)
}

/// The same at a CU-UP that isn't there yet.
fn place_first(
    users: &mut Users,
    alloc: Global,
    plan: Plan,
    downlink: u32,
) -> Result<(), PlaceError>
    requires absent { find node_cmp users.old (CuUp plan.gnb plan.up) ≡ None }
    requires few { plan.bearers ≤ 8 }
    requires least { 4 ≤ plan.quota }
    requires most { plan.quota ≤ 4096 }
    ensures { PlacesUser plan downlink users.old users.new result }
{
    let mut user = CuUser::new(alloc, plan.gnb, plan.up);
    match user.place_static(alloc, plan, downlink) {
        Ok(()) => keep_placed(users, plan, user),
        Err(error) => {
            drop(user);
            Err(error)
        }
    }
}

fn keep_placed(users: &mut Users, plan: Plan, user: CuUser) -> Result<(), PlaceError>
    ensures ok { OnOk result (users.new ≡ put node_cmp users.old (CuUp plan.gnb plan.up) user) }
    ensures fails { IfErr result (λ error. error ≡ errors.Step step_errors.Memory) }
{
    match keep(users, NodeId::CuUp(plan.gnb, plan.up), user, ()) {
        Ok(()) => Ok(()),
        Err(error) => Err(PlaceError::Step(error)),
    }
}

/// All CU-UPs count as set up.
pub fn mark_set_up(users: &mut Users, alloc: Global) -> Result<(), Memory>
    ensures { OnOk result (users.new ≡ map_values as_set_up users.old) }
{
    let names = keys_in(users, alloc)?;
    mark_each(users, names.as_slice());
    Ok(())
}

/// Those of these names count as set up.
fn mark_each(users: &mut Users, names: &[NodeId])
    ensures { users.new ≡ each_at node_cmp as_set_up names.now users.old }
{
    for name in names {
        mark(users, *name);
    }
}

fn mark(users: &mut Users, name: NodeId)
    ensures { users.new ≡ one_at node_cmp as_set_up users.old name (find node_cmp users.old name) }
{
    if let Some(user) = users.get_mut(&name) {
        user.mark_set_up();
    }
}

// ---- what a run looks at

/// Whether all CU-UPs are at rest as far as this bearer goes.
pub fn rest(users: &Users, ue: UeId, bearer: BearerId) -> bool
    ensures { result ≡ list_all (λ e. cu_up_rests e.1.up ue bearer) users.now }
{
    for (_, user) in users.iter() {
        if !user.rests(ue, bearer) {
            return false;
        }
    }
    true
}
