//! Open types, and what isn't known.

ghost use Rattle.std.specs.Prelude.{ℕ, ◌≡◌, ◌<◌, ◌≤◌, None, Some, ◌+◌, ◌*◌};
ghost use Rattle.aper_frames.specs.Frames.{asked_contents};
ghost use Rattle.aper_frames.specs.Weights.{frame_weight, outcome_weight};
ghost use Rattle.aper_stream.specs.declared.resuming.pending.Pending.TheVariants as pendings;
ghost use Rattle.aper_stream.specs.resuming.Turns.{IsLeft, Turns};
ghost use Rattle.aper_stream.specs.resuming.Weights.{weight_left, pending_weight, Lightens};

use crate::resuming::pending::{Pending, Stopped, handed_back};
use aper_cursor::asking::{ask_aligned, ask_closing, ask_opening, ask_run};
use aper_cursor::{Cursor, Extent, Question, RunUnit, Unanswered};
use aper_frames::{Frame, Stack};
use aper_values::make::raw;
use aper_values::value::Value;
use asn1_syntax::types::TypeId;
use gnb_types::octets::Octets;
use std::alloc::Global;

/// An open type around a value of this type, or of contents that aren't known.
pub fn contents<'m>(frame: Frame<'m>, known: Option<TypeId>) -> Pending<'m>
    ensures asked { IsLeft (λ fs of. asked_contents of frame.entry known fs) result }
    ensures lighter { (w : ℕ → ℕ) → pending_weight w result ≤ 2 * (outcome_weight w known + frame_weight w frame.entry) + 3 }
{
    match known {
        None => Pending::Unknown(frame),
        Some(definition) => Pending::Inside { frame, definition },
    }
}

/// The length of an open type, inside which a value of a type comes next.
pub fn take_inside<'m>(
    cursor: &mut Cursor,
    frames: &mut Stack<'m>,
    frame: Frame<'m>,
    definition: TypeId,
) -> Result<Pending<'m>, Stopped<'m>>
    ensures asked { Turns (pendings.Inside frame.entry definition) cursor.old cursor.new frames.old frames.new result }
    ensures lighter { Lightens (λ w. weight_left w (pendings.Inside frame.entry definition) frames.old) frames.new result }
{
    match ask_opening(cursor) {
        Err(error) => Err(handed_back(error, Pending::Inside { frame, definition })),
        Ok(_) => {
            frames.push(frame)?;
            frames.push(Frame::Open)?;
            Ok(Pending::Read(definition))
        }
    }
}

/// The length of an open type, whose octets come next.
pub fn take_length<'m>(
    cursor: &mut Cursor,
    frames: &mut Stack<'m>,
    frame: Frame<'m>,
) -> Result<Pending<'m>, Stopped<'m>>
    ensures asked { Turns (pendings.Unknown frame.entry) cursor.old cursor.new frames.old frames.new result }
    ensures lighter { Lightens (λ w. weight_left w (pendings.Unknown frame.entry) frames.old) frames.new result }
{
    let length = Extent::Whole {
        least: 1,
        most: 16383,
        outside: None,
    };
    match ask_aligned(cursor, Question::Extent(length)) {
        Err(reason) => Err(Stopped::Wrong(reason, Pending::Unknown(frame))),
        Ok(count) => {
            frames.push(frame)?;
            Ok(Pending::Octets(count as u16))
        }
    }
}

/// The octets of what isn't known.
pub fn take_octets<'m>(
    alloc: Global,
    cursor: &mut Cursor,
    frames: &Stack<'m>,
    count: u16,
) -> Result<Pending<'m>, Stopped<'m>>
    ensures asked { Turns (pendings.Octets count) cursor.old cursor.new frames.now frames.now result }
    ensures lighter { Lightens (λ w. weight_left w (pendings.Octets count) frames.now) frames.now result }
{
    let mut octets = Vec::new(alloc);
    match ask_run(cursor, RunUnit::Octet, count as u32, &mut octets) {
        Err(error) => Err(handed_back(error, Pending::Octets(count))),
        Ok(()) => Ok(Pending::Made(raw(Octets::from_vec(octets)))),
    }
}

/// The end of an open type after a value.
pub fn take_end<'m>(
    cursor: &mut Cursor,
    frames: &Stack<'m>,
    value: Value,
) -> Result<Pending<'m>, Stopped<'m>>
    ensures asked { Turns (pendings.Closing value) cursor.old cursor.new frames.now frames.now result }
    ensures lighter { Lightens (λ w. weight_left w (pendings.Closing value) frames.now) frames.now result }
{
    match ask_closing(cursor) {
        Err(reason) => Err(Stopped::Wrong(reason, Pending::Closing(value))),
        Ok(()) => Ok(Pending::Made(value)),
    }
}
