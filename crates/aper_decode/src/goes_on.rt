//! What comes after a value inside another one.

ghost use Rattle.std.specs.Prelude.{◌+◌};
ghost use Rattle.aper_values.specs.Views.{view};
ghost use Rattle.aper_frames.specs.Frames.{path_of, next_of, after};
ghost use Rattle.aper_frames.specs.Weights.{frame_weight, frames_weight};
ghost use Rattle.aper_values.specs.types.Types.{tree};
ghost use Rattle.aper_decode.specs.InModule.{IsOfModule, StepsIn, LighterIn};

use crate::container::after_element;
use crate::list::after_member;
use crate::sequence::{after_addition, after_component};
use aper_cursor::asking::ask_closing;
use aper_cursor::{Cursor, Unanswered};
use aper_frames::{Frame, Stack, Turn};
use aper_values::make::{chosen, message};
use aper_values::value::Value;
use asn1_module::Module;
use std::alloc::Global;

/// Goes on after a value inside this frame.
pub fn go_on<'m>(
    alloc: Global,
    m: &'m Module,
    cursor: &mut Cursor,
    frames: &mut Stack<'m>,
    frame: Frame<'m>,
    value: Value,
) -> Result<Turn, Unanswered>
    requires { IsOfModule m.now (λ w. frame_weight w frame) }
    ensures asked { StepsIn (tree m.now) (after (tree m.now) frame.entry (path_of frames.old) (next_of (tree m.now) frames.old) (view value))
        cursor.old cursor.new frames.new result }
    ensures lighter { LighterIn m.now (λ w. frame_weight w frame.entry + frames_weight w frames.old) frames.new result }
{
    match frame {
        Frame::Component(frame) => after_component(alloc, m, cursor, frames, frame.others, value),
        Frame::Addition(frame) => after_addition(alloc, cursor, frames, frame.others, value),
        Frame::Alternative(frame) => Ok(Turn::Made(chosen(alloc, frame.index, value)?)),
        Frame::Member(members) => after_member(alloc, m, cursor, frames, members, value),
        Frame::Element(frame) => after_element(alloc, m, cursor, frames, frame, value),
        Frame::Body(frame) => Ok(Turn::Made(message(
            alloc,
            frame.outcome,
            frame.code,
            frame.criticality,
            value,
        )?)),
        Frame::Open => {
            ask_closing(cursor)?;
            Ok(Turn::Made(value))
        }
    }
}
