//! How many bits or octets numbers take, and numbers in two's complement.

ghost use Rattle.std.specs.Prelude.{◌≡◌, ◌+◌, ◌*◌, ◌^◌, ◌<◌, ◌≤◌, true};
ghost use Rattle.aper_defs.specs.Numbers.{bits_for, octets_for, signed_octets_for, signed_number, unsigned_part, is_signed};

/// The fewest bits of a number below 256; without a loop, since it is asked for each small number that is read.
pub fn bits_for(number: u64) -> u32
    ensures bits { result ≡ bits_for number }
    ensures most { result ≤ 8 }
{
    if number < 1 {
        0
    } else if number < 2 {
        1
    } else if number < 4 {
        2
    } else if number < 8 {
        3
    } else if number < 16 {
        4
    } else if number < 32 {
        5
    } else if number < 64 {
        6
    } else if number < 128 {
        7
    } else {
        8
    }
}

/// The fewest octets of a number, at least one.
pub fn octets_for(number: u64) -> u32
    ensures octets { result ≡ octets_for number }
    ensures some { 1 ≤ result }
    ensures most { result ≤ 8 }
{
    if number < 1 << 8 {
        1
    } else if number < 1 << 16 {
        2
    } else if number < 1 << 24 {
        3
    } else if number < 1 << 32 {
        4
    } else if number < 1 << 40 {
        5
    } else if number < 1 << 48 {
        6
    } else if number < 1 << 56 {
        7
    } else {
        8
    }
}

/// The fewest octets in two's complement of a number of 64 bits.
pub fn signed_octets_for(number: i128) -> u32
    requires { is_signed number ≡ true }
    ensures { result ≡ signed_octets_for number }
{
    octets_for(2 * unsigned_part(number))
}

/// The number that so many octets in two's complement are.
pub fn signed_number(count: u32, number: u64) -> i128
    requires some { 1 ≤ count }
    requires most { count ≤ 8 }
    requires small { number < 2 ^ (8 * count) }
    ensures value { result ≡ signed_number count number }
    ensures signed { is_signed result ≡ true }
{
    let half = 1 << (8 * count - 1);
    if number < half {
        i128::from(number)
    } else {
        -1 - i128::from(half - 1 + half - number)
    }
}

/// A number without its sign's bit.
fn unsigned_part(number: i128) -> u64
    requires { is_signed number ≡ true }
    ensures { result ≡ unsigned_part number }
{
    if number < 0 {
        (-1 - number) as u64
    } else {
        number as u64
    }
}
