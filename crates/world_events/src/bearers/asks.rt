//! `ask`: whether a bearer is quiet, with how many of its packets were delivered.

ghost use Rattle.std.specs.Prelude.{◌≡◌};
ghost use Rattle.run_defs.specs.Printing.{out_line};
ghost use Rattle.run_defs.specs.Conditions.{ask_line};
ghost use Rattle.run_defs.specs.Events.{ask};
ghost use Rattle.run_defs.specs.UnitRuns.{unit_world};
ghost use Rattle.run_links.specs.Networks.{state_of};
ghost use Rattle.world_steps.specs.Gives.{EventGives};

use crate::bearers::quiet::rests;
use gnb_types::keys::EntityKey;
use gnb_types::names::{BearerId, Dir, UeId};
use gnb_types::reasons::RefuseReason;
use run_links::lines::Lines;
use scenario_text::line::OutLine;
use unit_messages::MessageCodec;
use world_steps::Units;
use world_steps::cause::Cause;
use world_steps::run_state::RunState;

/// The line that says whether a bearer is quiet.
pub fn ask_line<U: Units<C> + Drop, C: MessageCodec + Drop>(
    run_state: &RunState<U, C>,
    ue: UeId,
    bearer: BearerId,
) -> OutLine
    requires { U.ready run_state.now.units }
    ensures { result ≡ out_line (λ octets. octets)
        (ask_line (state_of (U.records run_state.now.units) run_state.now.core run_state.now.network) ue bearer) }
{
    if !rests(run_state, ue, bearer) {
        return OutLine::Busy { ue, bearer };
    }
    let downlink = EntityKey {
        ue,
        bearer,
        dir: Dir::Dl,
    };
    let uplink = EntityKey {
        ue,
        bearer,
        dir: Dir::Ul,
    };
    OutLine::Quiet {
        ue,
        bearer,
        downlink: run_state.network.book(downlink).delivered,
        uplink: run_state.network.book(uplink).delivered,
    }
}

/// `ask`.
#[tactic(auto, unfolding(run_defs::specs::Events::ask))]
pub fn ask<U: Units<C> + Drop, C: MessageCodec + Drop>(
    run_state: &RunState<U, C>,
    ue: UeId,
    bearer: BearerId,
    lines: &mut Lines,
) -> Result<(), Cause>
    requires { U.ready run_state.now.units }
    ensures gives { EventGives lines.old
        (ask (unit_world C.codec U.answer) ue bearer (state_of (U.records run_state.now.units) run_state.now.core run_state.now.network))
        lines.new (state_of (U.records run_state.now.units) run_state.now.core run_state.now.network) result }
{
    if !run_state.network.has_bearer(ue, bearer) {
        lines.push(OutLine::Refused {
            reason: RefuseReason::NoBearer,
        })?;
        return Ok(());
    }
    lines.push(ask_line(run_state, ue, bearer))?;
    Ok(())
}
