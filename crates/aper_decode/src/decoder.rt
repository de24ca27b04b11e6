//! Whole values.

ghost use Rattle.std.specs.Prelude.{◌≡◌, ◌<◌, ◌≤◌, [], length};
ghost use Rattle.aper_defs.specs.Trees.{Tree};
ghost use Rattle.aper_defs.specs.Reading.{run, decoded};
ghost use Rattle.aper_values.specs.types.Types.{tree};
ghost use Rattle.aper_frames.specs.Frames.{path_of};
ghost use Rattle.aper_frames.specs.Steps.{left};
ghost use Rattle.aper_frames.specs.Weights.{frames_weight};
ghost use Rattle.aper_decode.specs.Decoding.{Decodes};
ghost use Rattle.aper_decode.specs.InModule.{IsOfModule};
ghost use Rattle.aper_decode.specs.Turns.{ReadsWhole, ReadsValue, IsRefusal, IsTurnInside, TakesTurn, Lessens};

use crate::begin::begin;
use crate::error::DecodeError;
use crate::goes_on::go_on;
use aper_cursor::{Cursor, Unanswered};
use aper_defs::Reason;
use aper_frames::{Stack, Turn, path_of};
use aper_values::types::form_of;
use aper_values::value::Value;
use asn1_module::{Module, TypeId};
use std::alloc::Global;

/// What a turn leads to: another one, or the whole value.
#[derive(Drop)]
enum Progress {
    Next(Turn),
    Whole(Value),
}

/// An encoding has at most 131,072 octets. One octet more shows that it is longer, and what comes after that changes no answer.
const FRONT: usize = 131_073;

/// The value of a type of a module that these octets spell, or their first wrong field.
pub fn decode<'m>(
    alloc: Global,
    m: &'m Module,
    id: TypeId,
    octets: &[u8],
) -> Result<Value, DecodeError<'m>>
    requires { id.number < length m.now.nodes }
    ensures { Decodes (tree m.now id.number) octets.now result }
{
    decode_front(alloc, m, id, front(octets))
}

/// These octets as far as they are looked at.
fn front(octets: &[u8]) -> &[u8]
    ensures short { length result.now ≤ 131073 }
    ensures same { (t : Tree) → decoded t result.now ≡ decoded t octets.now }
{
    if octets.len() > FRONT {
        &octets[..FRONT]
    } else {
        octets
    }
}

/// The value that so few octets spell, or their first wrong field.
fn decode_front<'m>(
    alloc: Global,
    m: &'m Module,
    id: TypeId,
    octets: &[u8],
) -> Result<Value, DecodeError<'m>>
    requires inside { id.number < length m.now.nodes }
    requires short { length octets.now ≤ 131073 }
    ensures { Decodes (tree m.now id.number) octets.now result }
{
    let mut cursor = Cursor::new(alloc, octets);
    let mut frames = Stack::new(alloc);
    match read_whole(alloc, m, id, &mut cursor, &mut frames) {
        Ok(value) => Ok(value),
        Err(Unanswered::Memory) => Err(DecodeError::Memory),
        Err(Unanswered::Wrong(reason)) => Err(refused(alloc, cursor.place(), &frames, reason)),
    }
}

/// The refusal at this place.
pub fn refused<'m>(alloc: Global, bit: u64, frames: &Stack<'m>, reason: Reason) -> DecodeError<'m>
    ensures { IsRefusal bit reason (path_of frames.now) result }
{
    match path_of(alloc, frames) {
        Ok(path) => DecodeError::Refused { bit, reason, path },
        Err(_) => DecodeError::Memory,
    }
}

/// A value, and its end.
fn read_whole<'m>(
    alloc: Global,
    m: &'m Module,
    id: TypeId,
    cursor: &mut Cursor,
    frames: &mut Stack<'m>,
) -> Result<Value, Unanswered>
    requires inside { id.number < length m.now.nodes }
    requires first { frames.old ≡ [] }
    ensures { ReadsWhole (tree m.now id.number) cursor.old cursor.new frames.new result }
{
    let value = read_value(alloc, m, id, cursor, frames)?;
    cursor.closing()?;
    if !cursor.is_at_end() {
        return Err(Unanswered::Wrong(Reason::Tail));
    }
    Ok(value)
}

/// A value.
fn read_value<'m>(
    alloc: Global,
    m: &'m Module,
    id: TypeId,
    cursor: &mut Cursor,
    frames: &mut Stack<'m>,
) -> Result<Value, Unanswered>
    requires inside { id.number < length m.now.nodes }
    requires first { frames.old ≡ [] }
    ensures { ReadsValue (tree m.now id.number) cursor.old cursor.new frames.new result }
{
    let mut turn = Turn::Read(id);
    loop {
        match take_turn(alloc, m, cursor, frames, turn)? {
            Progress::Next(next) => turn = next,
            Progress::Whole(value) => return Ok(value),
        }
    }
}

/// Begins the value that is to be read, or goes on after the one that has been made.
#[inline(always)]
fn take_turn<'m>(
    alloc: Global,
    m: &'m Module,
    cursor: &mut Cursor,
    frames: &mut Stack<'m>,
    turn: Turn,
) -> Result<Progress, Unanswered>
    requires turn { IsTurnInside (length m.now.nodes) turn }
    requires frames { IsOfModule m.now (λ w. frames_weight w frames.old) }
    ensures asked { TakesTurn (tree m.now) (run (left (tree m.now) turn frames.old) cursor.old) cursor.new frames.new result }
    ensures lighter { Lessens m.now turn frames.old frames.new result }
{
    match turn {
        Turn::Read(id) => Ok(Progress::Next(begin(alloc, m, cursor, frames, form_of(m, id))?)),
        Turn::Made(value) => match frames.pop() {
            None => Ok(Progress::Whole(value)),
            Some(frame) => Ok(Progress::Next(go_on(alloc, m, cursor, frames, frame, value)?)),
        },
    }
}
