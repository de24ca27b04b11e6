//! What these events look at in units.

ghost use Rattle.std.specs.Prelude.{◌≡◌};
ghost use Rattle.run_defs.specs.Units.{is_serving, is_attempt, is_source_state, has_attempt};
ghost use Rattle.run_defs.specs.Conditions.{is_busy_with};
ghost use Rattle.run_links.specs.Networks.{state_of};

use gnb_types::names::{Gnb, UeId};
use unit_defs::StateName;
use unit_messages::MessageCodec;
use world_steps::Units;
use world_steps::run_state::RunState;

fn is_serving(state: StateName) -> bool
    ensures { result ≡ is_serving state }
{
    matches!(state, StateName::Serving)
}

/// Whether a CU-CP in this state has an attempt: in any but none and `Serving`.
fn is_attempt(state: StateName) -> bool
    ensures { result ≡ is_attempt state }
{
    !matches!(state, StateName::Idle | StateName::Serving)
}

/// Whether a CU-CP in this state is the source of a handover that it may cancel.
pub(crate) fn is_source(state: StateName) -> bool
    ensures { result ≡ is_source_state state }
{
    matches!(
        state,
        StateName::Preparing | StateName::Prepared | StateName::Frozen | StateName::Commanded
    )
}

/// Whether a CU-CP has an attempt with this terminal.
fn has_attempt<U: Units<C> + Drop, C: MessageCodec + Drop>(
    run_state: &RunState<U, C>,
    ue: UeId,
) -> bool
    requires { U.ready run_state.now.units }
    ensures { result ≡ has_attempt (U.records run_state.now.units) ue }
{
    is_attempt(run_state.units.cu_control(Gnb::A).state(ue))
        || is_attempt(run_state.units.cu_control(Gnb::B).state(ue))
}

/// Whether a terminal is busy: a CU-CP has an attempt with it, or the one that serves it doesn't yet.
pub(crate) fn is_busy_with<U: Units<C> + Drop, C: MessageCodec + Drop>(
    run_state: &RunState<U, C>,
    ue: UeId,
) -> bool
    requires { U.ready run_state.now.units }
    ensures { result ≡ is_busy_with (state_of (U.records run_state.now.units) run_state.now.core run_state.now.network) ue }
{
    if has_attempt(run_state, ue) {
        return true;
    }
    let serving = run_state.serving_gnb(ue);
    !is_serving(run_state.units.cu_control(serving).state(ue))
}
