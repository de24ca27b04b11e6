//! `lose`: a control message in flight is lost, or the oldest item of a tunnel that may lose any.

ghost use Rattle.std.specs.Prelude.{OnOk};
ghost use Rattle.run_defs.specs.Events.{lose_message, lose_item};
ghost use Rattle.run_defs.specs.UnitRuns.{unit_world};
ghost use Rattle.run_links.specs.Networks.{state_of};
ghost use Rattle.world_steps.specs.Gives.{EventGives};

use crate::Units;
use crate::cause::Cause;
use crate::run_state::RunState;
use gnb_types::keys::TunnelEnd;
use run_links::lines::Lines;
use unit_messages::MessageCodec;

/// `lose` of a control message.
pub fn lose_message<U: Units<C> + Drop, C: MessageCodec + Drop>(
    run_state: &mut RunState<U, C>,
    number: u32,
    lines: &mut Lines,
) -> Result<(), Cause>
    requires { U.ready run_state.old.units }
    ensures ready { OnOk result (U.ready run_state.new.units) }
    ensures gives { EventGives lines.old
        (lose_message (unit_world C.codec U.answer) number (state_of (U.records run_state.old.units) run_state.old.core run_state.old.network))
        lines.new (state_of (U.records run_state.new.units) run_state.new.core run_state.new.network) result }
{
    run_state.network.lose_message(number, lines)?;
    Ok(())
}

/// `lose` of an item.
pub fn lose_item<U: Units<C> + Drop, C: MessageCodec + Drop>(
    run_state: &mut RunState<U, C>,
    end: TunnelEnd,
    lines: &mut Lines,
) -> Result<(), Cause>
    requires { U.ready run_state.old.units }
    ensures ready { OnOk result (U.ready run_state.new.units) }
    ensures gives { EventGives lines.old
        (lose_item (unit_world C.codec U.answer) end (state_of (U.records run_state.old.units) run_state.old.core run_state.old.network))
        lines.new (state_of (U.records run_state.new.units) run_state.new.core run_state.new.network) result }
{
    run_state.network.lose_item(end, lines)?;
    Ok(())
}
