//! Whether every bearer of every attached terminal is quiet, and what is printed of each.

ghost use Rattle.std.specs.Prelude.{◌≡◌, ◌++◌, IfOk, OnOk};
ghost use Rattle.run_defs.specs.Settling.{all_quiet, ask_lines};
ghost use Rattle.run_links.specs.Networks.{OctetWorld, state_of};
ghost use Rattle.run_links.specs.Told.{printed};
ghost use Rattle.world.specs.settling.Bearers.{are_quiet, lines_of};

use crate::turns::attached::attached_bearers;
use gnb_types::items::Memory;
use gnb_types::names::{BearerId, UeId};
use run_links::lines::Lines;
use unit_messages::MessageCodec;
use world_events::bearers::asks::ask_line;
use world_events::bearers::quiet::rests;
use world_steps::Units;
use world_steps::run_state::RunState;

/// Whether each of these bearers is quiet.
fn are_quiet<U: Units<C> + Drop, C: MessageCodec + Drop>(
    run_state: &RunState<U, C>,
    bearers: &[(UeId, BearerId)],
) -> bool
    requires { U.ready run_state.now.units }
    ensures { result ≡ are_quiet (state_of (U.records run_state.now.units) run_state.now.core run_state.now.network) bearers.now }
{
    for (ue, bearer) in bearers {
        if !rests(run_state, *ue, *bearer) {
            return false;
        }
    }
    true
}

/// Whether every bearer of every attached terminal is quiet.
pub fn all_quiet<U: Units<C> + Drop, C: MessageCodec + Drop>(
    run_state: &RunState<U, C>,
) -> Result<bool, Memory>
    requires { U.ready run_state.now.units }
    ensures { IfOk result (λ b. (world : OctetWorld)
        → b ≡ all_quiet world (state_of (U.records run_state.now.units) run_state.now.core run_state.now.network)) }
{
    let bearers = attached_bearers(run_state.alloc, &run_state.network)?;
    Ok(are_quiet(run_state, bearers.as_slice()))
}

/// What is printed of each of these bearers.
fn print_bearers<U: Units<C> + Drop, C: MessageCodec + Drop>(
    run_state: &RunState<U, C>,
    bearers: &[(UeId, BearerId)],
    lines: &mut Lines,
) -> Result<(), Memory>
    requires { U.ready run_state.now.units }
    ensures { OnOk result (lines.new ≡ lines.old
        ++ printed (lines_of (state_of (U.records run_state.now.units) run_state.now.core run_state.now.network) bearers.now)) }
{
    for (ue, bearer) in bearers {
        lines.push(ask_line(run_state, *ue, *bearer))?;
    }
    Ok(())
}

/// What is printed of each bearer of each attached terminal.
pub fn print_quiet<U: Units<C> + Drop, C: MessageCodec + Drop>(
    run_state: &RunState<U, C>,
    lines: &mut Lines,
) -> Result<(), Memory>
    requires { U.ready run_state.now.units }
    ensures { OnOk result ((world : OctetWorld) → lines.new ≡ lines.old
        ++ printed (ask_lines world (state_of (U.records run_state.now.units) run_state.now.core run_state.now.network))) }
{
    let bearers = attached_bearers(run_state.alloc, &run_state.network)?;
    print_bearers(run_state, bearers.as_slice(), lines)
}
