//! The turns of a decoder over the octets that are there.

ghost use Rattle.std.specs.Prelude.{◌≡◌, ℕ, ◌≤◌, List, length, IfOk};
ghost use Rattle.aper_defs.specs.Trees.{Tree};
ghost use Rattle.aper_stream.specs.decoder.inside.Reading.{cursor_at, IsReadingAt, IsEnd, StandsThen, Stands, IsTurned, TurnedStands, IsKept, HaltsTurns};

use crate::decoder::spot::Spot;
use crate::steps::{Halted, Next, Onward, take_step};
use aper_cursor::Cursor;
use aper_defs::Reason;
use aper_frames::Stack;
use aper_values::value::Value;
use asn1_module::Module;
use gnb_types::items::Memory;
use std::alloc::Global;

/// How turns end.
#[derive(Drop)]
pub enum End<'m> {
    /// With the value, and the place after it.
    Whole(Value, u64),
    /// At a field that is wrong, or that isn't there yet: its place, why, and what comes next where more octets are there.
    Wrong(u64, Reason, Next<'m>),
}

/// What a turn leads to.
#[derive(Drop)]
enum Turned<'m> {
    Next(Next<'m>),
    End(End<'m>),
}

/// Takes turns as far as these octets go.
pub fn take_turns<'m>(
    alloc: Global,
    m: &'m Module,
    octets: &[u8],
    spot: &mut Spot,
    frames: &mut Stack<'m>,
    next: Next<'m>,
) -> Result<End<'m>, Memory>
    requires short { length octets.now ≤ 131073 }
    requires stands { Stands m.now (length octets.now) spot.old next frames.old }
    ensures ends { IfOk result (λ end. (t : Tree) → IsReadingAt m.now t octets.now spot.old next.entry frames.old
        → IsEnd m.now t octets.now spot.new frames.new end) }
    ensures stands { IfOk result (StandsThen m.now (length octets.now) spot.new frames.new) }
{
    let mut cursor = Cursor::at(alloc, octets, spot.place, spot.spans.as_slice())?;
    let mut next = next;
    for turn in 0..u64::MAX {
        match take_turn(alloc, m, &mut cursor, spot, frames, next)? {
            Turned::Next(other) => next = other,
            Turned::End(end) => return Ok(end),
        }
    }
    Err(Memory::too_many())
}

/// Takes a turn. Where it ends, what it was given stands at the place before it.
fn take_turn<'m>(
    alloc: Global,
    m: &'m Module,
    cursor: &mut Cursor,
    spot: &mut Spot,
    frames: &mut Stack<'m>,
    next: Next<'m>,
) -> Result<Turned<'m>, Memory>
    requires at { cursor.old ≡ cursor_at spot.old cursor.old.octets }
    requires stands { Stands m.now (length cursor.old.octets) spot.old next frames.old }
    ensures turned { IfOk result (λ turned. (t : Tree) → IsReadingAt m.now t cursor.old.octets spot.old next.entry frames.old
        → IsTurned m.now t cursor.old.octets spot.new frames.new turned) }
    ensures stands { IfOk result (TurnedStands m.now cursor.old.octets cursor.new spot.new frames.new) }
{
    match take_step(alloc, m, cursor, frames, next) {
        Ok(onward) => kept(cursor, spot, onward),
        Err(halted) => ended(cursor, halted),
    }
}

/// What a step leads to, with the place after it kept.
fn kept<'m>(cursor: &Cursor, spot: &mut Spot, onward: Onward<'m>) -> Result<Turned<'m>, Memory>
    ensures { IfOk result (IsKept cursor.now spot.new onward.entry) }
{
    match onward {
        Onward::Next(next) => {
            spot.move_to(cursor)?;
            Ok(Turned::Next(next))
        }
        Onward::Whole(value) => Ok(Turned::End(End::Whole(value, cursor.place()))),
    }
}

/// How a step that isn't taken ends turns.
fn ended<'m>(cursor: &Cursor, halted: Halted<'m>) -> Result<Turned<'m>, Memory>
    ensures { HaltsTurns cursor.now.place halted.entry result }
{
    match halted {
        Halted::Wrong(reason, back) => Ok(Turned::End(End::Wrong(cursor.place(), reason, back))),
        Halted::Memory => Err(Memory::told()),
    }
}
