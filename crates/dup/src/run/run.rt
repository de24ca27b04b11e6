//! A run, event by event.

ghost use Rattle.std.specs.Prelude.{◌≡◌, ◌≤◌, None, IfOk};
ghost use Rattle.dup_defs.specs.dup_run_defs.Steps.{steps};
ghost use Rattle.dup_bearer.specs.Bearers.{with_run};
ghost use Rattle.dup.specs.run.Runs.{new_dup, IsEvent, IsApplied};
ghost use Rattle.dup.specs.run.inside.Views.{IsStep};

use crate::run::drain::drain;
use crate::run::steps::{outcome, step_of, stop};
use dup_bearer::Bearer;
use dup_defs::types::event::DupEvent;
use dup_defs::types::stop::{DupEnd, DupLines, DupStop};
use gnb_types::items::Memory;
use gnb_types::names::SnBits;
use std::alloc::Global;
use std::marker::Model;

/// The run so far. Contracts see the run of the definitions.
#[derive(Drop)]
pub struct Dup {
    bearer: Bearer,
    /// Why the run has ended, if it has.
    ended: Option<DupEnd>,
    /// Memory ran out in an event.
    lacks_memory: bool,
}

impl Model for Dup {
    ghost use Rattle.dup.specs.run.Runs.{DupState};
    ghost use Rattle.dup.specs.run.inside.Views.{dup_state, IsDup};

    ghost Value = { DupState };

    ghost view = { λ d. dup_state d.bearer d.ended d.lacks_memory };

    ghost invariant = { λ d. IsDup d.bearer d.ended d.lacks_memory };
}

/// An event in a run that goes on.
#[tactic(auto, unfolding(dup_defs::specs::dup_run_defs::Steps::steps))]
fn step(alloc: Global, bearer: &mut Bearer, event: &DupEvent) -> Result<DupLines, DupStop>
    requires event { IsEvent event.now }
    requires going { bearer.old.gone ≡ None }
    ensures step { IsStep (steps bearer.old.sn bearer.old.quota event.now bearer.old.run) bearer.new.run result }
    ensures same { IfOk result (λ lines. bearer.new ≡ with_run bearer.old bearer.new.run) }
{
    if let DupEvent::Drain = event {
        return drain(alloc, bearer);
    }
    let outcome = outcome(alloc, bearer, event);
    step_of(alloc, bearer, outcome)
}

impl Dup {
    /// Nothing was offered; both legs are up and in the mode. At most `quota` packets are unconfirmed or wait.
    pub fn new(alloc: Global, sn: SnBits, quota: u16) -> Result<Dup, Memory>
        requires least { 4 ≤ quota }
        requires most { quota ≤ 4096 }
        ensures { IfOk result (λ dup. dup ≡ new_dup sn quota) }
    {
        let bearer = Bearer::new(alloc, sn, quota)?;
        Ok(Dup {
            bearer,
            ended: None,
            lacks_memory: false,
        })
    }

    /// Applies an event, and gives its lines. The run stops after the first step that leaves more than half a space of COUNTs outstanding,
    /// and where the last COUNT was given; from then on it answers that stop again, without lines, and so it does out of memory.
    pub fn apply(&mut self, alloc: Global, event: &DupEvent) -> Result<DupLines, DupStop>
        requires { IsEvent event.now }
        ensures { IsApplied (steps self.old.sn self.old.quota event.now self.old.run) self.old self.new result }
    {
        if self.lacks_memory {
            return Err(DupStop::Memory);
        }
        if let Some(end) = self.ended {
            return Err(stop(end, DupLines::new(alloc)));
        }
        let step = step(alloc, &mut self.bearer, event);
        match &step {
            Ok(_) => {}
            Err(DupStop::Outstanding { span, window, .. }) => {
                let (span, window) = (*span, *window);
                self.ended = Some(DupEnd::Outstanding { span, window });
            }
            Err(DupStop::CountsSpent { .. }) => self.ended = Some(DupEnd::CountsSpent),
            Err(DupStop::Memory) => self.lacks_memory = true,
        }
        step
    }
}
