//! Numbers, indices and counts.

ghost use Rattle.std.specs.Prelude.{◌≡◌, ℕ, ℤ, ◌-◌, ◌*◌, ◌<◌, ◌≤◌, ◌^◌, [], ◌∷◌, true, false, OnOk};
ghost use Rattle.std.specs.Int.Signed.{le_z};
ghost use Rattle.aper_defs.specs.Numbers.{above, in_range, unsigned_part, twos_complement, is_signed};
ghost use Rattle.aper_defs.specs.Fields.{Role};
ghost use Rattle.aper_defs.specs.Parts.{large_fields, number_fields, extension_fields, integer_fields, index_fields};
ghost use Rattle.aper_defs.specs.Membership.{is_number_of, is_index_of};
ghost use Rattle.aper_fields.specs.Following.{Follows};
ghost use Rattle.aper_fields.specs.Outside.{outside_fields};

use crate::counts::{bits_for, octets_for};
use crate::fields::{put_constrained, put_digits, put_flag, put_pad, put_signed, put_small};
use crate::lengths::put_extent;
use bits_core::writer::BitWriter;
use gnb_types::items::Memory;

/// The extension bit of a type that is extensible.
pub fn put_extension(out: &mut BitWriter, extensible: bool, is_extended: bool) -> Result<(), Memory>
    requires going { out.old.failed ≡ false }
    ensures going { OnOk result (out.new.failed ≡ false) }
    ensures follows { OnOk result
        (Follows out.old out.new (λ p. extension_fields p extensible is_extended)) }
{
    if extensible {
        put_flag(out, is_extended)?;
    }
    Ok(())
}

/// A number of which more than two octets may be needed: how many are, and then these.
fn put_large(out: &mut BitWriter, span: u64, number: u64) -> Result<(), Memory>
    requires most { number ≤ span }
    requires going { out.old.failed ≡ false }
    ensures going { OnOk result (out.new.failed ≡ false) }
    ensures follows { OnOk result (Follows out.old out.new (λ p. large_fields p span number)) }
{
    let count = octets_for(number);
    put_constrained(
        out,
        bits_for(u64::from(octets_for(span) - 1)),
        u64::from(count - 1),
    )?;
    put_pad(out)?;
    put_digits(out, count, number)
}

/// A number from 0 to the span.
#[tactic(auto, unfolding(aper_defs::specs::Parts::number_fields))]
pub fn put_number(out: &mut BitWriter, span: u64, number: u64) -> Result<(), Memory>
    requires most { number ≤ span }
    requires going { out.old.failed ≡ false }
    ensures going { OnOk result (out.new.failed ≡ false) }
    ensures follows { OnOk result ((role : Role)
        → Follows out.old out.new (λ p. number_fields p role span number)) }
{
    if span == 0 {
        return Ok(());
    }
    if span < 255 {
        return Ok(put_constrained(out, bits_for(span), number)?);
    }
    if span >= 65536 {
        return Ok(put_large(out, span, number)?);
    }
    put_pad(out)?;
    if span == 255 {
        return Ok(put_constrained(out, 8, number)?);
    }
    Ok(put_constrained(out, 16, number)?)
}

/// A number without its sign's bit: that of -1 is 0.
pub fn unsigned_part(number: i128) -> u64
    requires { is_signed number ≡ true }
    ensures value { result ≡ unsigned_part number }
    ensures small { result < 2 ^ 63 }
{
    if number < 0 {
        return (-(number + 1)) as u64;
    }
    number as u64
}

/// A number of 64 bits in so many octets of two's complement, where they are enough.
fn twos_complement(number: i128, count: u32) -> u64
    requires signed { is_signed number ≡ true }
    requires count { (1 ≤ count) × (count ≤ 8) }
    requires fits { unsigned_part number < 2 ^ (8 * count - 1) }
    ensures { result ≡ twos_complement count number }
{
    let part = unsigned_part(number);
    if number < 0 {
        return (u64::MAX >> (64 - 8 * count)) - part;
    }
    part
}

/// A number outside its range, in the fewest octets.
fn put_outside(out: &mut BitWriter, number: i128) -> Result<(), Memory>
    requires { is_signed number ≡ true }
    ensures going { OnOk result (out.new.failed ≡ false) }
    ensures follows { OnOk result ((low high : ℤ)
        → Follows out.old out.new (λ p. outside_fields p low high number)) }
{
    let count = octets_for(2 * unsigned_part(number));
    put_pad(out)?;
    put_extent(out, count)?;
    put_signed(out, count, twos_complement(number, count))
}

/// The range has this number.
pub fn in_range(low: i128, high: i128, number: i128) -> bool
    ensures { result ≡ in_range low high number }
{
    low <= number && number <= high
}

/// How far a number is above another one.
#[tactic(auto, using(crate::proofs::Signed::difference))]
pub fn above(low: i128, number: i128) -> u64
    requires order { le_z low number ≡ true }
    requires small { above low number < 2 ^ 64 }
    ensures { result ≡ above low number }
{
    (number - low) as u64
}

/// An INTEGER from `low` to `high`, or where it is extensible another number of 64 bits.
#[tactic(auto, unfolding(aper_defs::specs::Parts::integer_fields), using(proof_aper::proofs::answers::NumberFacts::in_range_low, proof_aper::proofs::answers::NumberFacts::above_at_most))]
pub fn put_integer(
    out: &mut BitWriter,
    low: i128,
    high: i128,
    extensible: bool,
    number: i128,
) -> Result<(), Memory>
    requires order { le_z low high ≡ true }
    requires span { above low high < 2 ^ 64 }
    requires member { is_number_of low high extensible number ≡ true }
    requires going { out.old.failed ≡ false }
    ensures going { OnOk result (out.new.failed ≡ false) }
    ensures follows { OnOk result
        (Follows out.old out.new (λ p. integer_fields p low high extensible number)) }
{
    let is_inside = in_range(low, high, number);
    put_extension(out, extensible, !is_inside)?;
    if is_inside {
        return Ok(put_number(out, above(low, high), above(low, number))?);
    }
    Ok(put_outside(out, number)?)
}

/// An index among so many, or where the type is extensible one of 64 past them.
#[tactic(auto, unfolding(aper_defs::specs::Parts::index_fields))]
pub fn put_index(
    out: &mut BitWriter,
    count: usize,
    extensible: bool,
    index: usize,
) -> Result<(), Memory>
    requires count { 1 ≤ count }
    requires member { is_index_of count extensible index ≡ true }
    requires going { out.old.failed ≡ false }
    ensures going { OnOk result (out.new.failed ≡ false) }
    ensures follows { OnOk result (Follows out.old out.new (λ p. index_fields p count extensible index)) }
{
    put_extension(out, extensible, count <= index)?;
    if index < count {
        return Ok(put_number(out, count as u64 - 1, index as u64)?);
    }
    Ok(put_small(out, (index - count) as u64)?)
}
