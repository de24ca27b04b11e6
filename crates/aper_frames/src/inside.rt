//! Open types around values that are read.

ghost use Rattle.std.specs.Prelude.{◌+◌, Some, None};
ghost use Rattle.aper_frames.specs.Frames.{asked_inside, asked_unknown, asked_contents};
ghost use Rattle.aper_frames.specs.Steps.{Steps};
ghost use Rattle.aper_frames.specs.Weights.{contents_weight, frame_weight, frames_weight, Lighter};

use crate::frame::{Frame, Turn};
use crate::heads::{RawError, ask_raw};
use crate::stack::Stack;
use aper_cursor::asking::ask_opening;
use aper_cursor::{Cursor, Unanswered};
use asn1_syntax::types::TypeId;
use std::alloc::Global;

/// Begins an open type inside a value, around a value of a type.
#[inline(always)]
pub fn ask_inside<'m>(
    cursor: &mut Cursor,
    frames: &mut Stack<'m>,
    frame: Frame<'m>,
    id: TypeId,
) -> Result<Turn, Unanswered>
    ensures asked { Steps (λ of. asked_inside of frame.entry id frames.old) cursor.old cursor.new frames.new result }
    ensures lighter { Lighter (λ w. contents_weight w (Some id) + frame_weight w frame.entry + frames_weight w frames.old) frames.new result }
{
    ask_opening(cursor)?;
    frames.push(frame)?;
    frames.push(Frame::Open)?;
    Ok(Turn::Read(id))
}

/// Takes an open type inside a value, whose contents aren't known.
pub fn ask_unknown<'m>(
    alloc: Global,
    cursor: &mut Cursor,
    frames: &mut Stack<'m>,
    frame: Frame<'m>,
) -> Result<Turn, Unanswered>
    ensures asked { Steps (λ of. asked_unknown of frame.entry frames.old) cursor.old cursor.new frames.new result }
    ensures lighter { Lighter (λ w. contents_weight w None + frame_weight w frame.entry + frames_weight w frames.old) frames.new result }
{
    match ask_raw(alloc, cursor) {
        Ok(value) => {
            frames.push(frame)?;
            Ok(Turn::Made(value))
        }
        Err(RawError::Octets(reason)) => {
            frames.push(frame)?;
            Err(Unanswered::Wrong(reason))
        }
        Err(RawError::Length(reason)) => Err(Unanswered::Wrong(reason)),
        Err(RawError::Memory) => Err(Unanswered::Memory),
    }
}

/// An open type inside a value, around a value of this type, or of contents that aren't known.
#[inline(always)]
pub fn ask_contents<'m>(
    alloc: Global,
    cursor: &mut Cursor,
    frames: &mut Stack<'m>,
    frame: Frame<'m>,
    known: Option<TypeId>,
) -> Result<Turn, Unanswered>
    ensures asked { Steps (λ of. asked_contents of frame.entry known frames.old) cursor.old cursor.new frames.new result }
    ensures lighter { Lighter (λ w. contents_weight w known + frame_weight w frame.entry + frames_weight w frames.old) frames.new result }
{
    match known {
        None => ask_unknown(alloc, cursor, frames, frame),
        Some(id) => ask_inside(cursor, frames, frame, id),
    }
}
