//! Length determinants (ITU-T X.691, 11.9).

ghost use Rattle.std.specs.Prelude.{◌≡◌, ◌<◌, ◌^◌, nat_le, true, false, ◌&&◌, if◌then◌else◌};
ghost use Rattle.aper_defs.specs.Fields.{whole, part};
ghost use Rattle.aper_defs.specs.Reading.{form_of, told, judged_extent, judged_length, is_inside, unless};
ghost use Rattle.aper_cursor.specs.Questions.{extent_of, length_form_of, IsShortExtent, IsSmallForm};

use aper_defs::Reason;
use asn1_syntax::types::Size;

/// A part of a string that isn't the last one has so many units, or up to four times so many.
const PART_UNITS: u64 = 16384;

/// The bounds of a length determinant: of a whole length, or of one that may come in parts. In both, the whole length isn't in
/// the root of a size.
#[derive(Clone, Copy)]
pub enum Extent {
    Whole {
        least: u64,
        most: u64,
        outside: Option<Size>,
    },
    /// So many units stand before it, and the number of units in the part before it.
    Part {
        before: u64,
        previous: u64,
        outside: Option<Size>,
    },
}

/// The forms of a length determinant: an octet, two octets, or so many times 16,384 units.
#[derive(Clone, Copy)]
pub enum LengthForm {
    Octet(u64),
    TwoOctets(u64),
    Units(u64),
}

impl Extent {
    /// What is wrong with a length determinant of these bits.
    pub fn judged(&self, number: u64) -> Option<Reason>
        requires small { number < 2 ^ 16 }
        requires short { IsShortExtent self.now }
        ensures { result ≡ judged_extent (extent_of self.now) (form_of number) }
    {
        let form = form_of(number);
        match self {
            Extent::Whole {
                least,
                most,
                outside,
            } => judged_whole(*least, *most, *outside, form),
            Extent::Part {
                before,
                previous,
                outside,
            } => judged_part(*before, *previous, *outside, form),
        }
    }
}

/// The length that these bits of a length determinant tell.
pub fn told(number: u64) -> u64
    requires { number < 2 ^ 16 }
    ensures { result ≡ told (form_of number) }
{
    match form_of(number) {
        LengthForm::Octet(length) => length,
        LengthForm::TwoOctets(length) => length,
        LengthForm::Units(count) => PART_UNITS * count,
    }
}

/// A reason unless something holds.
pub fn unless(holds: bool, reason: Reason) -> Option<Reason>
    ensures { result ≡ unless holds reason }
{
    if holds { None } else { Some(reason) }
}

/// The form of a length determinant of these bits.
fn form_of(number: u64) -> LengthForm
    requires { number < 2 ^ 16 }
    ensures form { length_form_of result ≡ form_of number }
    ensures small { IsSmallForm result }
{
    if number < 128 {
        LengthForm::Octet(number)
    } else if number < 256 {
        LengthForm::Units(number.saturating_sub(192))
    } else {
        LengthForm::TwoOctets(number.saturating_sub(32768))
    }
}

fn judged_whole(least: u64, most: u64, outside: Option<Size>, form: LengthForm) -> Option<Reason>
    ensures { result ≡ judged_extent (whole least most outside) (length_form_of form) }
{
    match form {
        LengthForm::Octet(n) => judged_length(!is_inside(outside, n), least, most, n),
        LengthForm::TwoOctets(n) => judged_length(is_least(outside, n, n), least, most, n),
        LengthForm::Units(_) => Some(Reason::Length),
    }
}

fn judged_part(
    before: u64,
    previous: u64,
    outside: Option<Size>,
    form: LengthForm,
) -> Option<Reason>
    requires before { before < 2 ^ 32 }
    requires small { IsSmallForm form }
    ensures { result ≡ judged_extent (part before previous outside) (length_form_of form) }
{
    match form {
        LengthForm::Octet(n) => unless(!is_inside(outside, before + n), Reason::NotMinimal),
        LengthForm::TwoOctets(n) => unless(is_least(outside, n, before + n), Reason::NotMinimal),
        LengthForm::Units(count) => judged_length(previous >= 4 * PART_UNITS, 1, 4, count),
    }
}

fn judged_length(is_minimal: bool, least: u64, most: u64, n: u64) -> Option<Reason>
    ensures { result ≡ judged_length is_minimal least most n }
{
    if !is_minimal {
        return Some(Reason::NotMinimal);
    }
    unless(least <= n && n <= most, Reason::Length)
}

/// Whether two octets are the least form of a length, where the whole length isn't in the root of a size.
fn is_least(outside: Option<Size>, length: u64, whole: u64) -> bool
    ensures { result ≡ (nat_le 128 length && (if is_inside outside whole then false else true)) }
{
    length >= 128 && !is_inside(outside, whole)
}

fn is_inside(outside: Option<Size>, n: u64) -> bool
    ensures { result ≡ is_inside outside n }
{
    match outside {
        None => false,
        Some(size) => u64::from(size.low) <= n && n <= u64::from(size.high),
    }
}
