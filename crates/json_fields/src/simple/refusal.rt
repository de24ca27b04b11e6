//! Why JSON isn't read as a value.

ghost use Rattle.std.specs.Prelude.{◌≡◌, ◌∷◌, List, Result};
ghost use Rattle.aper_defs.specs.Fields.{Path};
ghost use Rattle.aper_frames.specs.Paths.{step_view};
ghost use Rattle.json_defs.specs.Demands.{Demand};
ghost use Rattle.json_defs.specs.declared.fault.JsonFault.TheVariants.{Shape, Range};
ghost use Rattle.json_fields.specs.simple.Answers.{Tells, IsHere};
ghost use Rattle.json_fields.specs.declared.simple.refusal.Refusal.TheVariants.{Memory as OutOfMemory};

use aper_frames::Step;
use gnb_types::items::Memory;
use json_defs::JsonFault;
use std::alloc::{AllocFailed, Global};

/// Why JSON isn't read as a value.
#[derive(Drop)]
pub enum Refusal<'m> {
    /// What is wrong with a member, and the way to it: the last step comes first.
    Fault {
        fault: JsonFault,
        path: Vec<Step<'m>>,
    },
    Memory,
}

impl<'m> From<Memory> for Refusal<'m> {
    ghost from_gives = { λ _ e. e ≡ OutOfMemory };

    fn from(_error: Memory) -> Refusal<'m> {
        Refusal::Memory
    }
}

impl<'m, T: Drop> From<AllocFailed<T>> for Refusal<'m> {
    ghost from_gives = { λ _ e. e ≡ OutOfMemory };

    fn from(_error: AllocFailed<T>) -> Refusal<'m> {
        Refusal::Memory
    }
}

/// What was asked for isn't of its form.
pub fn shape<'m>(alloc: Global) -> Refusal<'m>
    ensures { IsHere Shape result }
{
    Refusal::Fault {
        fault: JsonFault::Shape,
        path: Vec::new(alloc),
    }
}

/// What was asked for is outside its bounds.
pub fn range<'m>(alloc: Global) -> Refusal<'m>
    ensures { IsHere Range result }
{
    Refusal::Fault {
        fault: JsonFault::Range,
        path: Vec::new(alloc),
    }
}

/// The same refusal, one step further out.
pub fn under<'m>(refusal: Refusal<'m>, step: Step<'m>) -> Refusal<'m>
    ensures { (of : Path → List Demand) → Tells of refusal.entry → Tells (λ p. of (step_view step.entry ∷ p)) result }
{
    match refusal {
        Refusal::Fault { fault, path } => {
            let mut path = path;
            match path.push(step) {
                Ok(()) => Refusal::Fault { fault, path },
                Err(_) => Refusal::Memory,
            }
        }
        Refusal::Memory => Refusal::Memory,
    }
}
