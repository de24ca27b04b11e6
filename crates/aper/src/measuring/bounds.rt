//! Whether numbers, indices, counts and characters are some of a type.

ghost use Rattle.std.specs.Prelude.{◌≡◌, Some, None, Option};
ghost use Rattle.std.specs.List.{list_all};
ghost use Rattle.asn1_syntax.specs.declared.types.definition.Size.{Size};
ghost use Rattle.aper_defs.specs.Numbers.{is_signed};
ghost use Rattle.aper_defs.specs.Membership.{is_number_of, is_index_of, is_count_of, is_printable};

use aper_fields::numbers::in_range;
use aper_fields::strings::in_size;
use asn1_syntax::types::Size;

/// The most members that a list has where its size doesn't say.
const MEMBER_LIMIT: usize = 16383;

/// A number of 64 bits with a sign.
fn is_signed(number: i128) -> bool
    ensures { result ≡ is_signed number }
{
    -(1 << 63) <= number && number < 1 << 63
}

/// A number of an INTEGER.
pub fn is_number_of(low: i128, high: i128, extensible: bool, number: i128) -> bool
    ensures { result ≡ is_number_of low high extensible number }
{
    in_range(low, high, number) || (extensible && is_signed(number))
}

/// An index among so many, or where the type is extensible one of 64 past them.
pub fn is_index_of(count: usize, extensible: bool, index: usize) -> bool
    ensures { result ≡ is_index_of count extensible index }
{
    index < count || (extensible && index - count < 64)
}

/// A length that a string of this size has.
pub fn is_length_of(size: Option<Size>, count: usize) -> bool
    ensures { result ≡ is_count_of None size count }
{
    match size {
        None => true,
        Some(size) => in_size(size, count) || size.extensible,
    }
}

/// A number of members that a list of this size has.
pub fn is_member_count_of(size: Option<Size>, count: usize) -> bool
    ensures { result ≡ is_count_of (Some 16383) size count }
{
    match size {
        None => count <= MEMBER_LIMIT,
        Some(size) => in_size(size, count) || (size.extensible && count <= MEMBER_LIMIT),
    }
}

/// A character of PrintableString.
fn is_printable(character: u8) -> bool
    ensures { result ≡ is_printable character }
{
    (97 <= character && character <= 122)
        || (65 <= character && character <= 90)
        || (39 <= character && character <= 58 && character != 42)
        || character == 32
        || character == 61
        || character == 63
}

/// Characters of PrintableString alone.
pub fn are_printable(characters: &[u8]) -> bool
    ensures { result ≡ list_all is_printable characters.now }
{
    for character in characters {
        if !is_printable(*character) {
            return false;
        }
    }
    true
}
