//! `get`: the oldest item of a tunnel is given to its end.

ghost use Rattle.std.specs.Prelude.{◌≡◌, ◌∷◌, List, ℕ, Some, IfOk, OnOk};
ghost use Rattle.gnb_types.specs.Orders.{tunnel_cmp};
ghost use Rattle.tables.specs.Tables.{find};
ghost use Rattle.gnb_types.specs.declared.inputs.Input.TheVariants as ins;
ghost use Rattle.transport_defs.specs.declared.Item.{Item as ItemOf};
ghost use Rattle.run_defs.specs.Events.{get, get_done};
ghost use Rattle.run_defs.specs.UnitRuns.{unit_world};
ghost use Rattle.run_links.specs.Networks.{state_of};
ghost use Rattle.world_steps.specs.Gives.{EventGives};
ghost use Rattle.world_steps.specs.Moves.{StepOutcome};

use crate::Units;
use crate::asked::{Asked, Moved, moved_by};
use crate::cause::Cause;
use crate::run_state::RunState;
use gnb_types::inputs::Input;
use gnb_types::items::Memory;
use gnb_types::keys::TunnelEnd;
use links::items::Item;
use run_links::lines::{Lines, tunnel_link};
use scenario_text::line::OutLine;
use unit_messages::MessageCodec;

/// An item of a tunnel, as its end takes it.
fn packet_input(teid: u32, item: &Item) -> Result<Input, Memory>
    ensures { IfOk result (λ input. input ≡ ins.Packet teid item.now.content) }
{
    let bytes = item.content.clone()?;
    Ok(Input::Packet { teid, bytes })
}

/// The oldest item of a tunnel is given to its end, where one stands there. What wasn't made isn't printed.
pub fn get_item<U: Units<C> + Drop, C: MessageCodec + Drop>(
    run_state: &mut RunState<U, C>,
    end: TunnelEnd,
    lines: &mut Lines,
) -> Result<Moved, Cause>
    requires { U.ready run_state.old.units }
    ensures ready { OnOk result (U.ready run_state.new.units) }
    ensures gives { (item : ItemOf (List ℕ)) (rest : List (ItemOf (List ℕ)))
        → find tunnel_cmp run_state.old.network.tunnels.tunnels end ≡ Some (item ∷ rest) → StepOutcome
        (get_done (unit_world C.codec U.answer) end item rest (state_of (U.records run_state.old.units) run_state.old.core run_state.old.network))
        (record { state = state_of (U.records run_state.old.units) run_state.old.core run_state.old.network; lines = lines.old })
        (record { state = state_of (U.records run_state.new.units) run_state.new.core run_state.new.network; lines = lines.new }) result }
{
    let (input, count) = match run_state.network.oldest(end) {
        Ok(item) => (packet_input(end.teid, item)?, item.count),
        Err(reason) => return Ok(Moved::Refuses(reason)),
    };
    let asked = match run_state.ask(end.node, input) {
        Ok(asked) => asked,
        Err(cause) => return Err(cause),
    };
    match asked {
        Asked::Does(outputs) => {
            run_state.network.take_off(end, lines)?;
            moved_by(run_state.finish(end.node, count, outputs, lines))
        }
        Asked::Holds(reason) => Ok(Moved::Holds(reason)),
        Asked::Refuses(reason) => Ok(Moved::Refuses(reason)),
    }
}

/// `get`.
pub fn get<U: Units<C> + Drop, C: MessageCodec + Drop>(
    run_state: &mut RunState<U, C>,
    end: TunnelEnd,
    lines: &mut Lines,
) -> Result<(), Cause>
    requires { U.ready run_state.old.units }
    ensures ready { OnOk result (U.ready run_state.new.units) }
    ensures gives { EventGives lines.old
        (get (unit_world C.codec U.answer) end (state_of (U.records run_state.old.units) run_state.old.core run_state.old.network))
        lines.new (state_of (U.records run_state.new.units) run_state.new.core run_state.new.network) result }
{
    if let Err(reason) = run_state.network.oldest(end) {
        lines.push(OutLine::Refused { reason })?;
        return Ok(());
    }
    let moved = match get_item(run_state, end, lines) {
        Ok(moved) => moved,
        Err(cause) => return Err(cause),
    };
    moved.show_held(tunnel_link(end), lines)?;
    Ok(())
}
