//! One step, and steps after others.

ghost use Rattle.std.specs.Prelude.{◌≡◌, None, IfOk};
ghost use Rattle.pdcp.specs.Numbers.{half};
ghost use Rattle.dup_defs.specs.declared.types.line.DupRefusal.TheVariants.{Down};
ghost use Rattle.dup_defs.specs.dup_run_defs.Run.{DupRun, DupOutcome, refused, where_up, carry, confirm};
ghost use Rattle.dup_defs.specs.dup_run_defs.Steps.{DupStep, step_of as step_by, printed_first};
ghost use Rattle.dup_bearer.specs.Bearers.{with_run, IsOutcome};
ghost use Rattle.dup.specs.run.Runs.{IsEvent, stop_of};
ghost use Rattle.dup.specs.run.inside.Views.{IsStep, outcome_by};

use dup_bearer::{Bearer, DupFault};
use dup_defs::types::event::DupEvent;
use dup_defs::types::leg::Leg;
use dup_defs::types::line::{DupLine, DupRefusal};
use dup_defs::types::stop::{DupEnd, DupLines, DupStop};
use gnb_types::items::Items;
use gnb_types::names::SnBits;
use std::alloc::Global;

/// What an outcome is of the run: it has ended where more than half a space of COUNTs is outstanding, or where the last COUNT was given.
pub(crate) fn step_of(
    alloc: Global,
    bearer: &Bearer,
    outcome: Result<DupLines, DupFault>,
) -> Result<DupLines, DupStop>
    ensures { (o : DupOutcome) → IsOutcome o bearer.now.run outcome
        → IsStep (step_by bearer.now.sn o) bearer.now.run result }
{
    let mut lines = match outcome {
        Ok(lines) => lines,
        Err(DupFault::CountsSpent) => {
            let lines = DupLines::new(alloc);
            return Err(DupStop::CountsSpent { lines });
        }
        Err(DupFault::Memory) => return Err(DupStop::Memory),
    };
    let span = bearer.span();
    let window = half_space(bearer.sn());
    if span <= window {
        return Ok(lines);
    }
    lines.push(DupLine::Outstanding { span, window })?;
    Err(DupStop::Outstanding {
        span,
        window,
        lines,
    })
}

/// The lines of earlier steps, and then those of a step.
pub(crate) fn joined(lines: DupLines, step: Result<DupLines, DupStop>) -> Result<DupLines, DupStop>
    ensures { (s : DupStep) (run : DupRun) → IsStep s run step
        → IsStep (printed_first lines s) run result }
{
    let mut lines = lines;
    match step {
        Ok(more) => {
            lines.extend(more)?;
            Ok(lines)
        }
        Err(
            DupStop::Outstanding {
                span,
                window,
                lines: more,
            },
        ) => {
            lines.extend(more)?;
            Err(DupStop::Outstanding {
                span,
                window,
                lines,
            })
        }
        Err(DupStop::CountsSpent { lines: more }) => {
            lines.extend(more)?;
            Err(DupStop::CountsSpent { lines })
        }
        Err(DupStop::Memory) => Err(DupStop::Memory),
    }
}

/// An event of a leg that isn't up.
fn refused_down(alloc: Global) -> Result<DupLines, DupFault>
    ensures { (run : DupRun) → IsOutcome (refused Down run) run result }
{
    let reason = DupRefusal::Down;
    Ok(Items::one(alloc, DupLine::Refused { reason })?)
}

fn carry(alloc: Global, bearer: &mut Bearer, leg: Leg) -> Result<DupLines, DupFault>
    requires { bearer.old.gone ≡ None }
    ensures outcome { IsOutcome (where_up leg bearer.old.run (carry bearer.old.sn leg bearer.old.run)) bearer.new.run result }
    ensures same { IfOk result (λ lines. bearer.new ≡ with_run bearer.old bearer.new.run) }
{
    if !bearer.is_up(leg) {
        return refused_down(alloc);
    }
    bearer.carry(alloc, leg)
}

fn confirm(alloc: Global, bearer: &mut Bearer, leg: Leg) -> Result<DupLines, DupFault>
    requires { bearer.old.gone ≡ None }
    ensures outcome { IsOutcome (where_up leg bearer.old.run
        (confirm bearer.old.sn bearer.old.quota leg bearer.old.run)) bearer.new.run result }
    ensures same { IfOk result (λ lines. bearer.new ≡ with_run bearer.old bearer.new.run) }
{
    if !bearer.is_up(leg) {
        return refused_down(alloc);
    }
    bearer.confirm(alloc, leg)
}

/// What an event that isn't a drain comes to.
#[tactic(auto, unfolding(dup_defs::specs::dup_run_defs::Steps::steps))]
pub(crate) fn outcome(
    alloc: Global,
    bearer: &mut Bearer,
    event: &DupEvent,
) -> Result<DupLines, DupFault>
    requires event { IsEvent event.now }
    requires going { bearer.old.gone ≡ None }
    ensures outcome { IsOutcome (outcome_by bearer.old event.now) bearer.new.run result }
    ensures same { IfOk result (λ lines. bearer.new ≡ with_run bearer.old bearer.new.run) }
{
    match event {
        DupEvent::Offer { packet } => bearer.offer(alloc, packet.as_slice()),
        DupEvent::Carry { leg } => carry(alloc, bearer, *leg),
        DupEvent::Confirm { leg } => confirm(alloc, bearer, *leg),
        DupEvent::Fail { leg } => bearer.fail(alloc, *leg),
        DupEvent::Mend { leg } => bearer.mend(alloc, *leg),
        DupEvent::SetMode { mode } => bearer.change_mode(alloc, *mode),
        DupEvent::Drain | DupEvent::Ask => bearer.ask(alloc),
    }
}

/// How a run that has ended answers.
pub(crate) fn stop(end: DupEnd, lines: DupLines) -> DupStop
    ensures { result ≡ stop_of end lines }
{
    match end {
        DupEnd::Outstanding { span, window } => DupStop::Outstanding {
            span,
            window,
            lines,
        },
        DupEnd::CountsSpent => DupStop::CountsSpent { lines },
    }
}

/// Half the space of numbers.
fn half_space(sn: SnBits) -> u32
    ensures { result ≡ half sn }
{
    match sn {
        SnBits::Len12 => 2_048,
        SnBits::Len18 => 131_072,
    }
}
