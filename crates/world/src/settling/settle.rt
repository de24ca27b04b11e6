//! `settle`.

ghost use Rattle.std.specs.Prelude.{◌≡◌, OnOk};
ghost use Rattle.run_defs.specs.Printing.{out_line};
ghost use Rattle.run_defs.specs.Settling.{rounds_from, settle};
ghost use Rattle.run_defs.specs.UnitRuns.{unit_world};
ghost use Rattle.run_links.specs.Networks.{state_of};
ghost use Rattle.world_steps.specs.Gives.{EventGives};
ghost use Rattle.world.specs.settling.Rounds.{end_line, ends_with};

use crate::settling::limit::round_limit;
use crate::settling::quiet::{all_quiet, print_quiet};
use crate::settling::rounds::round;
use run_links::lines::Lines;
use scenario_text::line::OutLine;
use unit_messages::MessageCodec;
use world_steps::Units;
use world_steps::cause::Cause;
use world_steps::run_state::RunState;

/// The line at the end, after so many rounds.
fn end_line(rounds: u64, quiet: bool) -> OutLine
    ensures { result ≡ out_line (λ octets. octets) (end_line rounds quiet) }
{
    if quiet {
        OutLine::Settled { rounds }
    } else {
        OutLine::Unsettled { rounds }
    }
}

/// What is printed at the end, after so many rounds.
fn end<U: Units<C> + Drop, C: MessageCodec + Drop>(
    run_state: &RunState<U, C>,
    rounds: u64,
    quiet: bool,
    lines: &mut Lines,
) -> Result<(), Cause>
    requires { U.ready run_state.now.units }
    ensures { EventGives lines.old
        (ends_with (unit_world C.codec U.answer) rounds quiet (state_of (U.records run_state.now.units) run_state.now.core run_state.now.network))
        lines.new (state_of (U.records run_state.now.units) run_state.now.core run_state.now.network) result }
{
    lines.push(end_line(rounds, quiet))?;
    print_quiet(run_state, lines)?;
    Ok(())
}

/// The end after so many rounds, where no more are left.
fn end_at_limit<U: Units<C> + Drop, C: MessageCodec + Drop>(
    run_state: &RunState<U, C>,
    rounds: u64,
    lines: &mut Lines,
) -> Result<(), Cause>
    requires { U.ready run_state.now.units }
    ensures { EventGives lines.old
        (rounds_from (unit_world C.codec U.answer) rounds 0 (state_of (U.records run_state.now.units) run_state.now.core run_state.now.network))
        lines.new (state_of (U.records run_state.now.units) run_state.now.core run_state.now.network) result }
{
    let quiet = all_quiet(run_state)?;
    end(run_state, rounds, quiet, lines)
}

/// Rounds, until all is quiet or so many were made.
fn rounds_from<U: Units<C> + Drop, C: MessageCodec + Drop>(
    run_state: &mut RunState<U, C>,
    limit: u64,
    lines: &mut Lines,
) -> Result<(), Cause>
    requires { U.ready run_state.old.units }
    ensures ready { OnOk result (U.ready run_state.new.units) }
    ensures gives { EventGives lines.old
        (rounds_from (unit_world C.codec U.answer) 0 limit (state_of (U.records run_state.old.units) run_state.old.core run_state.old.network))
        lines.new (state_of (U.records run_state.new.units) run_state.new.core run_state.new.network) result }
{
    for rounds in 0..limit {
        let quiet = all_quiet(run_state)?;
        if quiet {
            return end(run_state, rounds, true, lines);
        }
        match round(run_state, lines) {
            Ok(()) => {}
            Err(cause) => return Err(cause),
        }
    }
    end_at_limit(run_state, limit, lines)
}

/// `settle`.
pub fn settle<U: Units<C> + Drop, C: MessageCodec + Drop>(
    run_state: &mut RunState<U, C>,
    lines: &mut Lines,
) -> Result<(), Cause>
    requires { U.ready run_state.old.units }
    ensures ready { OnOk result (U.ready run_state.new.units) }
    ensures gives { EventGives lines.old
        (settle (unit_world C.codec U.answer) (state_of (U.records run_state.old.units) run_state.old.core run_state.old.network))
        lines.new (state_of (U.records run_state.new.units) run_state.new.core run_state.new.network) result }
{
    let limit = round_limit(run_state.alloc, &run_state.network)?;
    rounds_from(run_state, limit, lines)
}
