//! An event that is no more than an order to a unit.

ghost use Rattle.std.specs.Prelude.{OnOk};
ghost use Rattle.run_defs.specs.UnitRuns.{unit_world};
ghost use Rattle.run_links.specs.Networks.{state_of};
ghost use Rattle.world_steps.specs.Gives.{EventGives};
ghost use Rattle.world_events.specs.orders.Orders.{MayBeGiven, ordered};

use gnb_types::inputs::{Input, Order};
use gnb_types::names::NodeId;
use gnb_types::reasons::RefuseReason;
use run_links::lines::Lines;
use scenario_text::line::OutLine;
use unit_messages::MessageCodec;
use world_steps::Units;
use world_steps::cause::Cause;
use world_steps::run_state::RunState;

/// Which unit an event gives which order, or why the event can't apply.
pub type Ordered = Result<(NodeId, Order), RefuseReason>;

/// The unit is given its order, or the event is refused.
pub fn give_order<U: Units<C> + Drop, C: MessageCodec + Drop>(
    run_state: &mut RunState<U, C>,
    order: Ordered,
    lines: &mut Lines,
) -> Result<(), Cause>
    requires ready { U.ready run_state.old.units }
    requires there { MayBeGiven (U.records run_state.old.units) order }
    ensures ready { OnOk result (U.ready run_state.new.units) }
    ensures gives { EventGives lines.old
        (ordered (unit_world C.codec U.answer) (state_of (U.records run_state.old.units) run_state.old.core run_state.old.network) order)
        lines.new (state_of (U.records run_state.new.units) run_state.new.core run_state.new.network) result }
{
    match order {
        Ok((node, order)) => run_state.step(node, Input::Order(order), lines),
        Err(reason) => {
            lines.push(OutLine::Refused { reason })?;
            Ok(())
        }
    }
}
