//! NR-U frames: data, and the delivery status.

ghost use Rattle.std.specs.Prelude.{◌≡◌, ◌+◌, ◌*◌, ◌^◌, ◌<◌, ◌≤◌, length, drop, ◌++◌, if◌then◌else◌, Ok, IfOk, IfErr, OnOk};
ghost use Rattle.std.specs.List.{flat_map};
ghost use Rattle.gnb_types.specs.Numbers.{be24};
ghost use Rattle.nr_user_plane.specs.Frames.{Nru, FitsFrame, number24, range_octets, lost_octets, field_octets, filled, nru_octets};
ghost use Rattle.nr_user_plane.specs.declared.frames.Frame.{Frame};
ghost use Rattle.nr_user_plane.specs.Reasons.{IsRefusal, kind, lost_len, delivered_len, has_lost, has_delivered, number24_at, is_clear_status, is_padding};
ghost use Rattle.nr_user_plane.specs.Tests.{Answers, AnswersStatus, AnswersLost, AnswersPairs};
ghost use Rattle.nr_user_plane.specs.declared.frames.FrameError.{FrameError};

use crate::ranges::Ranges;
use gnb_types::octets::{Memory, Octets};
use std::alloc::Global;
use thiserror::Error;

/// A frame: the content of one NR RAN Container.
#[derive(Drop, PartialEq, Eq)]
pub enum Frame {
    /// Downlink user data: whether a status is asked for, whether the numbers begin anew here, and the NR-U number.
    Data {
        poll: bool,
        restart: bool,
        sn: u32,
    },
    /// The delivery status: the desired buffer size in octets, the lost NR-U numbers, and the highest delivered PDCP
    /// number.
    Status {
        room: u32,
        lost: Ranges,
        delivered: Option<u32>,
    },
}

/// Why octets are no frame.
#[derive(Clone, Copy, Debug, PartialEq, Eq, Error)]
pub enum FrameError {
    #[error("the kind of frame is unknown")]
    Kind,
    #[error("the frame ends too soon")]
    Truncated,
    #[error("a spare bit is set, or the padding is too long")]
    Spare,
    #[error("the lost ranges are not ascending, or not one to seven")]
    Ranges,
}

/// Set in the first octet of a status that reports lost ranges.
const LOST: u8 = 0x01;

/// Set in the first octet of a status that reports a delivered number.
const DELIVERED: u8 = 0x04;

/// The spare bits of the first octet of a status.
const SPARE: u8 = 0x0a;

fn reports_lost(first: u8) -> bool
    ensures { result ≡ has_lost first }
{
    first & LOST != 0
}

fn reports_delivered(first: u8) -> bool
    ensures { result ≡ has_delivered first }
{
    first & DELIVERED != 0
}

/// The spare bits of the first two octets of a status are 0.
fn has_clear_spares(first: u8, second: u8) -> bool
    ensures { result ≡ is_clear_status first second }
{
    first & SPARE == 0 && second == 0
}

fn number24(a: u8, b: u8, c: u8) -> u32
    ensures { result ≡ number24 a b c }
{
    u32::from_be_bytes([0, a, b, c])
}

/// At most three octets, all zeros.
fn is_padding(octets: &[u8]) -> bool
    ensures { result ≡ is_padding octets.now }
{
    octets.len() <= 3 && octets.iter().all(|octet| *octet == 0)
}

/// Reads a frame. The octets may be filled up with one to three zeros.
pub fn decode(content: &[u8]) -> Result<Frame, FrameError>
    ensures found { IfOk result (λ frame. Nru frame content.now) }
    ensures only { (frame : Frame) → Nru frame content.now → result ≡ Ok frame }
    ensures refused { IfErr result (λ reason. IsRefusal reason content.now) }
    // It is refused for each reason for which it should be.
    ensures all { (reason : FrameError) → IsRefusal reason content.now → result ≡ Err reason }
{
    read_frame(content)
}

/// Reads a frame by the places of its fields.
fn read_frame(content: &[u8]) -> Result<Frame, FrameError>
    ensures { Answers content.now result }
{
    match content {
        [] => Err(FrameError::Truncated),
        [first, ..] if *first < 16 => decode_data(content),
        [first, ..] if *first < 32 => decode_status(content),
        _ => Err(FrameError::Kind),
    }
}

fn decode_data(content: &[u8]) -> Result<Frame, FrameError>
    requires some { 0 < length content.now }
    requires data { kind content.now ≡ 0 }
    ensures { Answers content.now result }
{
    let [first, second, a, b, c, padding @ ..] = content else {
        return Err(FrameError::Truncated);
    };
    if *first > 1 || *second > 1 || !is_padding(padding) {
        return Err(FrameError::Spare);
    }
    Ok(Frame::Data {
        poll: *first == 1,
        restart: *second == 1,
        sn: number24(*a, *b, *c),
    })
}

fn decode_status(content: &[u8]) -> Result<Frame, FrameError>
    requires some { 0 < length content.now }
    requires status { kind content.now ≡ 1 }
    ensures { Answers content.now result }
{
    let [first, second, a, b, c, d, fields @ ..] = content else {
        return Err(FrameError::Truncated);
    };
    let room = u32::from_be_bytes([*a, *b, *c, *d]);
    decode_fields(*first, *second, room, fields)
}

/// Reads the fields of a status that are after the desired buffer size.
fn decode_fields(first: u8, second: u8, room: u32, fields: &[u8]) -> Result<Frame, FrameError>
    ensures { AnswersStatus first second room fields.now result }
{
    if fields.len() < octets_needed(first, fields) {
        return Err(FrameError::Truncated);
    }
    let (lost, after) = lost_ranges(first, fields)?;
    let (delivered, padding) = delivered_number(first, after);
    if !has_clear_spares(first, second) || !is_padding(padding) {
        return Err(FrameError::Spare);
    }
    Ok(Frame::Status {
        room,
        lost,
        delivered,
    })
}

/// How many octets the fields after the desired buffer size need.
fn octets_needed(first: u8, fields: &[u8]) -> usize
    ensures { result ≡ lost_len first fields.now + delivered_len first }
{
    let lost = if reports_lost(first) {
        1 + 6 * usize::from(fields.first().copied().unwrap_or(0))
    } else {
        0
    };
    let delivered = if reports_delivered(first) { 3 } else { 0 };
    lost + delivered
}

/// The lost ranges of a status, and what follows them.
fn lost_ranges(first: u8, fields: &[u8]) -> Result<(Ranges, &[u8]), FrameError>
    requires { lost_len first fields.now ≤ length fields.now }
    ensures { AnswersLost first fields.now result }
{
    if !reports_lost(first) {
        return Ok((Ranges::new(), fields));
    }
    let [count, octets @ ..] = fields else {
        unreachable!()
    };
    if *count == 0 || *count > 7 {
        return Err(FrameError::Ranges);
    }
    read_ranges(*count, octets)
}

/// That many ranges, and what follows them.
fn read_ranges(count: u8, octets: &[u8]) -> Result<(Ranges, &[u8]), FrameError>
    requires few { count ≤ 7 }
    requires whole { 6 * count ≤ length octets.now }
    ensures { AnswersPairs count octets.now result }
{
    let mut ranges = Ranges::new();
    let mut rest = octets;
    let mut least = 0;
    while ranges.len() < usize::from(count) {
        let ((start, end), after) = read_pair(rest);
        if start < least || end < start {
            return Err(FrameError::Ranges);
        }
        ranges.push(start, end);
        least = end + 1;
        rest = after;
    }
    Ok((ranges, rest))
}

/// The start and the end of a range, and what follows them.
fn read_pair(octets: &[u8]) -> ((u32, u32), &[u8])
    requires { 6 ≤ length octets.now }
    ensures start { result.0.0 ≡ number24_at octets.now 0 }
    ensures end { result.0.1 ≡ number24_at octets.now 3 }
    ensures small { (result.0.0 < 2 ^ 24) × (result.0.1 < 2 ^ 24) }
    ensures rest { result.1.now ≡ drop 6 octets.now }
{
    let [a, b, c, d, e, f, after @ ..] = octets else {
        unreachable!()
    };
    ((number24(*a, *b, *c), number24(*d, *e, *f)), after)
}

/// The delivered number of a status, and what follows it.
fn delivered_number(first: u8, fields: &[u8]) -> (Option<u32>, &[u8])
    requires { delivered_len first ≤ length fields.now }
    ensures number { result.0 ≡ (if has_delivered first then Some (number24_at fields.now 0) else None) }
    ensures rest { result.1.now ≡ drop (delivered_len first) fields.now }
{
    if !reports_delivered(first) {
        return (None, fields);
    }
    let [a, b, c, padding @ ..] = fields else {
        unreachable!()
    };
    (Some(number24(*a, *b, *c)), padding)
}

/// Writes a frame, filled up with zeros to 4n - 2 octets.
pub fn encode(alloc: Global, frame: &Frame) -> Result<Octets, Memory>
    requires { FitsFrame frame.now }
    ensures { IfOk result (λ octets. octets ≡ nru_octets frame.now) }
{
    let mut octets = match frame {
        Frame::Data { poll, restart, sn } => {
            let [_, a, b, c] = sn.to_be_bytes();
            Octets::from_slice(alloc, &[u8::from(*poll), u8::from(*restart), a, b, c])?
        }
        Frame::Status {
            room,
            lost,
            delivered,
        } => status_octets(alloc, *room, lost, *delivered)?,
    };
    fill(&mut octets)?;
    Ok(octets)
}

fn status_octets(
    alloc: Global,
    room: u32,
    lost: &Ranges,
    delivered: Option<u32>,
) -> Result<Octets, Memory>
    requires { length lost.now ≤ 7 }
    ensures { IfOk result (λ octets. octets ≡ field_octets (Frame.Status room lost.now delivered)) }
{
    let first = 0x10
        | if lost.is_empty() { 0 } else { LOST }
        | if delivered.is_some() { DELIVERED } else { 0 };
    let [a, b, c, d] = room.to_be_bytes();
    let mut octets = Octets::from_slice(alloc, &[first, 0, a, b, c, d])?;
    push_ranges(&mut octets, lost)?;
    if let Some(number) = delivered {
        push_number(&mut octets, number)?;
    }
    Ok(octets)
}

/// Puts the lost ranges after their count, or nothing where there are none.
fn push_ranges(octets: &mut Octets, lost: &Ranges) -> Result<(), Memory>
    requires { length lost.now ≤ 7 }
    ensures { OnOk result (octets.new ≡ octets.old ++ lost_octets lost.now) }
{
    if lost.is_empty() {
        return Ok(());
    }
    octets.push(lost.len() as u8)?;
    push_pairs(octets, lost.as_slice())?;
    Ok(())
}

fn push_pairs(octets: &mut Octets, pairs: &[(u32, u32)]) -> Result<(), Memory>
    ensures { OnOk result (octets.new ≡ octets.old ++ flat_map range_octets pairs.now) }
{
    for (start, end) in pairs {
        push_number(octets, *start)?;
        push_number(octets, *end)?;
    }
    Ok(())
}

/// Puts the low three octets of a number.
fn push_number(octets: &mut Octets, number: u32) -> Result<(), Memory>
    ensures { OnOk result (octets.new ≡ octets.old ++ be24 number) }
{
    let [_, a, b, c] = number.to_be_bytes();
    octets.append(&[a, b, c])
}

/// Fills up with zeros to the next 4n - 2 octets.
fn fill(octets: &mut Octets) -> Result<(), Memory>
    ensures { OnOk result (octets.new ≡ filled octets.old) }
{
    let missing = (6 - octets.len() % 4) % 4;
    octets.append(&[0; 3][..missing])?;
    Ok(())
}
