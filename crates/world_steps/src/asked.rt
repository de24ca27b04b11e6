//! What a unit answers, as a run takes it.

ghost use Rattle.std.specs.Prelude.{◌≡◌, ◌++◌, OnOk};
ghost use Rattle.world_steps.specs.Asks.{alone_in};
ghost use Rattle.world_steps.specs.Moves.{held_lines, refused_lines, moved_by};

use crate::cause::Cause;
use gnb_types::items::Memory;
use gnb_types::outputs::{Output, Outputs};
use gnb_types::reasons::{HeldReason, RefuseReason};
use run_links::lines::Lines;
use scenario_text::line::{Link, OutLine};

/// What comes of an input.
#[derive(Drop)]
pub enum Asked {
    /// The unit makes a step, with these outputs.
    Does(Outputs),
    /// The item stays where it is.
    Holds(HeldReason),
    /// The event can't apply.
    Refuses(RefuseReason),
}

/// What a step came to.
#[derive(Clone, Copy)]
pub enum Moved {
    /// It was made.
    Done,
    /// The item stays where it is.
    Holds(HeldReason),
    /// The event can't apply.
    Refuses(RefuseReason),
}

impl Moved {
    /// Prints that the item of this link is held, or that the event is refused.
    pub fn show_held(self, link: Link, lines: &mut Lines) -> Result<(), Memory>
        ensures { OnOk result (lines.new ≡ lines.old ++ held_lines link self) }
    {
        match self {
            Moved::Done => Ok(()),
            Moved::Holds(reason) => lines.push(OutLine::Held { link, reason }),
            Moved::Refuses(reason) => lines.push(OutLine::Refused { reason }),
        }
    }

    /// Prints that the event is refused.
    pub fn show_refused(self, lines: &mut Lines) -> Result<(), Memory>
        ensures { OnOk result (lines.new ≡ lines.old ++ refused_lines self) }
    {
        match self {
            Moved::Done | Moved::Holds(_) => Ok(()),
            Moved::Refuses(reason) => lines.push(OutLine::Refused { reason }),
        }
    }
}

/// A step that was made, or can't be.
pub fn moved_by(made: Result<(), Cause>) -> Result<Moved, Cause>
    ensures { result ≡ moved_by made }
{
    match made {
        Ok(()) => Ok(Moved::Done),
        Err(cause) => Err(cause),
    }
}

/// A single output by which a unit makes no step.
#[derive(Clone, Copy)]
pub(crate) enum Alone {
    Holds(HeldReason),
    Refuses(RefuseReason),
    Neither,
}

/// What stands alone among outputs.
pub(crate) fn alone_in(outputs: &Outputs) -> Alone
    ensures { result ≡ alone_in outputs.now }
{
    match outputs.as_slice() {
        [Output::Held(reason)] => Alone::Holds(*reason),
        [Output::No(reason)] => Alone::Refuses(*reason),
        _ => Alone::Neither,
    }
}
