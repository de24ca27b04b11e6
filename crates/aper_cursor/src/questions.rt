//! The questions that octets are asked, and what is wrong with a number that stands there.

ghost use Rattle.std.specs.Prelude.{◌≡◌, ◌+◌, ◌*◌, ◌<◌, ◌≤◌, ◌^◌, nat_le, true, false, ◌&&◌, if◌then◌else◌};
ghost use Rattle.aper_defs.specs.Numbers.{in_range};
ghost use Rattle.aper_defs.specs.Fields.{digits, signed};
ghost use Rattle.aper_defs.specs.Membership.{is_printable};
ghost use Rattle.aper_defs.specs.Bits.{unit_width};
ghost use Rattle.aper_defs.specs.Reading.{Cursor, judged, answer_of, too_great};
ghost use Rattle.aper_cursor.specs.Questions.{role_of, unit_of, question_of, IsAskable, IsNumberOf};

use crate::lengths::{Extent, told, unless};
use crate::numbers::{signed_number, signed_octets_for};
use crate::rows::judged_id;
use aper_defs::Reason;
use asn1_syntax::assignments::IeRow;

/// What a number stands for; a number that is too great is refused for it.
#[derive(Clone, Copy, PartialEq, Eq)]
pub enum Role {
    Value,
    Index,
    Length,
}

/// The numbers from low to high.
#[derive(Clone, Copy, PartialEq, Eq)]
pub struct Range {
    pub low: i128,
    pub high: i128,
}

/// What is asked at a place.
#[derive(Clone, Copy)]
pub enum Question<'m> {
    /// A bit of its own.
    Flag,
    /// A constrained whole number of so many bits, at most this.
    Constrained {
        role: Role,
        width: u32,
        most: u64,
    },
    /// The octets of a constrained whole number of which so many are needed, at most this.
    Digits {
        count: u32,
        most: u64,
    },
    /// So many octets of a whole number outside the range.
    Signed {
        count: u32,
        range: Range,
    },
    /// A normally small number below 64.
    Small(Role),
    /// A length determinant.
    Extent(Extent),
    /// Which additions are there, as a bit for each.
    AdditionBits(u32),
    Character,
    /// How many information elements come, at least so many.
    IeCount(u64),
    /// The id of an information element, with the rows of its set, those of them that may still come, and how many elements
    /// come after it.
    IeId {
        known: &'m [IeRow],
        left: &'m [IeRow],
        after: u64,
    },
    /// Zero bits up to the next octet.
    Pad,
}

/// What a run is made of.
#[derive(Clone, Copy, PartialEq, Eq)]
pub enum RunUnit {
    Bit,
    Octet,
}

impl RunUnit {
    /// How many bits it has.
    pub fn width(self) -> u32
        ensures width { result ≡ unit_width (unit_of self) }
        ensures some { 1 ≤ result }
        ensures most { result ≤ 8 }
    {
        match self {
            RunUnit::Bit => 1,
            RunUnit::Octet => 8,
        }
    }
}

impl Role {
    fn too_great(self) -> Reason
        ensures { result ≡ too_great (role_of self) }
    {
        match self {
            Role::Value => Reason::Range,
            Role::Index => Reason::Index,
            Role::Length => Reason::Length,
        }
    }
}

impl<'m> Question<'m> {
    /// Why the number that stands at a place is no answer.
    #[inline(always)]
    pub fn judged(&self, number: u64) -> Option<Reason>
        requires askable { IsAskable self.now }
        requires small { IsNumberOf self.now number }
        ensures { (c : Cursor) → result ≡ judged (question_of self.now) c number }
    {
        match self {
            Question::Flag => None,
            Question::Constrained { role, most, .. } => unless(number <= *most, role.too_great()),
            Question::Digits { count, most } => judged_digits(*count, *most, number),
            Question::Signed { count, range } => judged_signed(*count, range, number),
            Question::Small(role) => unless(number < 64, role.too_great()),
            Question::Extent(bounds) => bounds.judged(number),
            Question::AdditionBits(_) => unless(0 < number, Reason::EmptyAdditions),
            Question::Character => unless(is_printable(number), Reason::Character),
            Question::IeCount(least) => unless(*least <= number, Reason::Required),
            Question::IeId { known, left, after } => judged_id(known, left, *after, number),
            Question::Pad => unless(number == 0, Reason::Padding),
        }
    }

    /// The answer that a number is.
    #[inline(always)]
    pub fn answer(&self, number: u64) -> u64
        requires { IsNumberOf self.now number }
        ensures { (c : Cursor) → result ≡ answer_of (question_of self.now) c number }
    {
        match self {
            Question::Extent(_) => told(number),
            _ => number,
        }
    }
}

fn judged_digits(count: u32, most: u64, number: u64) -> Option<Reason>
    requires { count ≤ 8 }
    ensures { (c : Cursor) → result ≡ judged (digits count most) c number }
{
    if count > 1 && number < 1 << (8 * (count - 1)) {
        return Some(Reason::NotMinimal);
    }
    unless(number <= most, Reason::Range)
}

fn judged_signed(count: u32, range: &Range, octets: u64) -> Option<Reason>
    requires some { 1 ≤ count }
    requires most { count ≤ 8 }
    requires small { octets < 2 ^ (8 * count) }
    ensures { (c : Cursor) → result ≡ judged (signed count range.now.low range.now.high) c octets }
{
    let number = signed_number(count, octets);
    let least = signed_octets_for(number);
    let is_inside = is_in_range(range.low, range.high, number);
    let is_least = is_least_outside(count, least, is_inside);
    unless(is_least, Reason::NotMinimal)
}

/// Whether so many octets are no more than it takes, for a number that isn't in its range.
fn is_least_outside(count: u32, least: u32, is_inside: bool) -> bool
    ensures { result ≡ (nat_le count least && (if is_inside then false else true)) }
{
    count <= least && !is_inside
}

fn is_in_range(low: i128, high: i128, number: i128) -> bool
    ensures { result ≡ in_range low high number }
{
    low <= number && number <= high
}

/// Whether this is a character of PrintableString.
fn is_printable(code: u64) -> bool
    ensures { result ≡ is_printable code }
{
    (97 <= code && code <= 122)
        || (65 <= code && code <= 90)
        || (39 <= code && code <= 58 && code != 42)
        || code == 32
        || code == 61
        || code == 63
}
