//! The terminals, by their names.

ghost use Rattle.std.specs.Prelude.{◌≡◌, ◌≤◌, [], OnOk, IfErr};
ghost use Rattle.std.specs.Option.{option_map};
ghost use Rattle.gnb_types.specs.Orders.{ue_cmp};
ghost use Rattle.tables.specs.Tables.{find, put};
ghost use Rattle.unit_defs.specs.octet_defs.Units.{ue_steps};
ghost use Rattle.unit_messages.specs.steps.Steps.{step_after};
ghost use Rattle.unit_messages.specs.declared.steps.StepError.TheVariants as step_errors;
ghost use Rattle.ue_node.specs.Nodes.{HasPacket, new_node};
ghost use Rattle.site.specs.site_tables.Terminals.{TerminalSteps, IsWorking, as_placed};

use gnb_types::inputs::Input;
use gnb_types::items::Memory;
use gnb_types::names::UeId;
use gnb_types::outputs::Outputs;
use gnb_types::plans::Plan;
use std::alloc::Global;
use tables::table::Table;
use ue_node::UeNode;
use unit_messages::lawful_codecs::LawfulCodec;
use unit_messages::steps::StepError;

pub type Terminals = Table<UeId, UeNode>;

/// A terminal comes, by its plan.
pub fn seat(terminals: &mut Terminals, alloc: Global, plan: Plan) -> Result<(), Memory>
    requires least { 4 ≤ plan.quota }
    requires most { plan.quota ≤ 4096 }
    ensures { OnOk result (terminals.new ≡ put ue_cmp terminals.old plan.ue (new_node plan)) }
{
    let terminal = UeNode::new(alloc, plan)?;
    drop(terminals.put(plan.ue, terminal)?);
    Ok(())
}

/// A terminal comes as if an attach had run, by its plan.
pub fn place(terminals: &mut Terminals, alloc: Global, plan: Plan) -> Result<(), StepError>
    requires least { 4 ≤ plan.quota }
    requires most { plan.quota ≤ 4096 }
    ensures placed { OnOk result
        (terminals.new ≡ put ue_cmp terminals.old plan.ue (as_placed (new_node plan))) }
    ensures fails { IfErr result (λ error. error ≡ step_errors.Memory) }
{
    let mut terminal = UeNode::new(alloc, plan)?;
    terminal.place_static()?;
    drop(terminals.put(plan.ue, terminal)?);
    Ok(())
}

/// One step of the terminal of this name. One that isn't there makes none.
pub fn step<C: LawfulCodec>(
    terminals: &mut Terminals,
    alloc: Global,
    codec: &C,
    ue: UeId,
    input: Input,
) -> Result<Outputs, StepError>
    requires works { IsWorking (find ue_cmp terminals.old ue) }
    requires packet { HasPacket input }
    ensures { TerminalSteps
        (option_map (λ u. step_after [] (ue_steps C.codec u.node input)) (find ue_cmp terminals.old ue))
        (put ue_cmp terminals.old ue) terminals.old terminals.new result }
{
    match terminals.get_mut(&ue) {
        Some(terminal) => terminal.step(alloc, codec, input),
        None => Ok(Outputs::new(alloc)),
    }
}
