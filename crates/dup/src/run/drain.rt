//! Draining: round after round on the first leg and then on the second, each where it is up: all is carried, then all that was carried is
//! confirmed.

ghost use Rattle.std.specs.Prelude.{◌≡◌, None, IfOk};
ghost use Rattle.dup_defs.specs.dup_run_defs.Steps.{drains, work as work_of, round as round_of, turn as turn_of};
ghost use Rattle.dup_bearer.specs.Bearers.{with_run};
ghost use Rattle.dup.specs.run.inside.Views.{IsStep};
ghost use Rattle.dup.specs.run.inside.Loops.{step_by, items_by, all_by};

use crate::run::steps::{joined, step_of};
use dup_bearer::Bearer;
use dup_defs::types::leg::Leg;
use dup_defs::types::stop::{DupLines, DupStop};
use std::alloc::Global;

/// What is done with an item.
#[derive(Clone, Copy)]
pub(crate) enum Part {
    Carries,
    Confirms,
}

/// Drains the legs.
#[tactic(auto, unfolding(dup_defs::specs::dup_run_defs::Steps::drains))]
pub(crate) fn drain(alloc: Global, bearer: &mut Bearer) -> Result<DupLines, DupStop>
    requires { bearer.old.gone ≡ None }
    ensures step { IsStep (drains bearer.old.sn bearer.old.quota bearer.old.run) bearer.new.run result }
    ensures same { IfOk result (λ lines. bearer.new ≡ with_run bearer.old bearer.new.run) }
{
    let mut lines = DupLines::new(alloc);
    // Each round carries or confirms an item, and a packet that waits comes to be two items at most.
    let mut left = work(bearer);
    while left > 0 && !bearer.are_empty() {
        let more = round(alloc, bearer);
        lines = joined(lines, more)?;
        left -= 1;
    }
    Ok(lines)
}

/// How many rounds there are at most.
fn work(bearer: &Bearer) -> u64
    ensures { result ≡ work_of bearer.now.sn bearer.now.quota bearer.now.run }
{
    5 * u64::from(bearer.waiting())
        + 2 * u64::from(bearer.len(Leg::First))
        + 2 * u64::from(bearer.len(Leg::Second))
}

fn round(alloc: Global, bearer: &mut Bearer) -> Result<DupLines, DupStop>
    requires { bearer.old.gone ≡ None }
    ensures step { IsStep (round_of bearer.old.sn bearer.old.quota bearer.old.run) bearer.new.run result }
    ensures same { IfOk result (λ lines. bearer.new ≡ with_run bearer.old bearer.new.run) }
{
    let lines = turn(alloc, bearer, Leg::First)?;
    let more = turn(alloc, bearer, Leg::Second);
    joined(lines, more)
}

/// A leg's part of a round.
fn turn(alloc: Global, bearer: &mut Bearer, leg: Leg) -> Result<DupLines, DupStop>
    requires { bearer.old.gone ≡ None }
    ensures step { IsStep (turn_of bearer.old.sn bearer.old.quota leg bearer.old.run) bearer.new.run result }
    ensures same { IfOk result (λ lines. bearer.new ≡ with_run bearer.old bearer.new.run) }
{
    if !bearer.is_up(leg) {
        return Ok(DupLines::new(alloc));
    }
    let lines = all(alloc, bearer, leg, Part::Carries)?;
    let more = all(alloc, bearer, leg, Part::Confirms);
    joined(lines, more)
}

/// A step for each item that is there now.
fn all(alloc: Global, bearer: &mut Bearer, leg: Leg, part: Part) -> Result<DupLines, DupStop>
    requires { bearer.old.gone ≡ None }
    ensures step { IsStep (all_by bearer.old part leg) bearer.new.run result }
    ensures same { IfOk result (λ lines. bearer.new ≡ with_run bearer.old bearer.new.run) }
{
    let mut lines = DupLines::new(alloc);
    let mut left = items(bearer, leg, part);
    while left > 0 {
        let more = one(alloc, bearer, leg, part);
        lines = joined(lines, more)?;
        left -= 1;
    }
    Ok(lines)
}

/// How many items there are for it.
fn items(bearer: &Bearer, leg: Leg, part: Part) -> usize
    ensures { result ≡ items_by part leg bearer.now.run }
{
    match part {
        Part::Carries => bearer.coming(leg),
        Part::Confirms => bearer.carried(leg),
    }
}

/// One step.
fn one(alloc: Global, bearer: &mut Bearer, leg: Leg, part: Part) -> Result<DupLines, DupStop>
    requires { bearer.old.gone ≡ None }
    ensures step { IsStep (step_by bearer.old.sn bearer.old.quota part leg bearer.old.run) bearer.new.run result }
    ensures same { IfOk result (λ lines. bearer.new ≡ with_run bearer.old bearer.new.run) }
{
    let outcome = match part {
        Part::Carries => bearer.carry(alloc, leg),
        Part::Confirms => bearer.confirm(alloc, leg),
    };
    step_of(alloc, bearer, outcome)
}
