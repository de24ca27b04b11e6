//! `pump`: the control message of the least number in flight is given, again and again.

ghost use Rattle.std.specs.Prelude.{OnOk};
ghost use Rattle.run_defs.specs.Events.{pump, pump_times};
ghost use Rattle.run_defs.specs.UnitRuns.{unit_world};
ghost use Rattle.run_links.specs.Networks.{state_of};
ghost use Rattle.world_steps.specs.Gives.{EventGives};

use crate::Units;
use crate::cause::Cause;
use crate::control_messages::gives::give;
use crate::run_state::RunState;
use run_links::lines::Lines;
use unit_messages::MessageCodec;

/// How many messages one `pump` gives at most.
const PUMP_LIMIT: u32 = 1000;

/// At most so many messages are given.
fn pump_times<U: Units<C> + Drop, C: MessageCodec + Drop>(
    run_state: &mut RunState<U, C>,
    times: u32,
    lines: &mut Lines,
) -> Result<(), Cause>
    requires { U.ready run_state.old.units }
    ensures ready { OnOk result (U.ready run_state.new.units) }
    ensures gives { EventGives lines.old
        (pump_times (unit_world C.codec U.answer) times (state_of (U.records run_state.old.units) run_state.old.core run_state.old.network))
        lines.new (state_of (U.records run_state.new.units) run_state.new.core run_state.new.network) result }
{
    for _ in 0..times {
        let number = match run_state.network.least_in_flight() {
            Some(number) => number,
            None => return Ok(()),
        };
        match give(run_state, number, lines) {
            Ok(()) => {}
            Err(cause) => return Err(cause),
        }
    }
    Ok(())
}

/// `pump`.
pub fn pump<U: Units<C> + Drop, C: MessageCodec + Drop>(
    run_state: &mut RunState<U, C>,
    lines: &mut Lines,
) -> Result<(), Cause>
    requires { U.ready run_state.old.units }
    ensures ready { OnOk result (U.ready run_state.new.units) }
    ensures gives { EventGives lines.old
        (pump (unit_world C.codec U.answer) (state_of (U.records run_state.old.units) run_state.old.core run_state.old.network))
        lines.new (state_of (U.records run_state.new.units) run_state.new.core run_state.new.network) result }
{
    pump_times(run_state, PUMP_LIMIT, lines)
}
