//! Numbers.

ghost use Rattle.std.specs.Prelude.{◌≡◌, ℤ, ◌<◌, ◌^◌, true, Bool};
ghost use Rattle.std.specs.Int.Signed.{le_z};
ghost use Rattle.aper_defs.specs.Numbers.{is_signed, above};
ghost use Rattle.aper_defs.specs.Membership.{is_number_of};
ghost use Rattle.aper_defs.specs.Fields.{Role};
ghost use Rattle.aper_defs.specs.Parts.{large_fields, number_fields, extension_fields, integer_fields, index_fields};
ghost use Rattle.aper_fields.specs.Outside.{outside_fields};
ghost use Rattle.aper_fields.specs.widths.Ends.{Ends};

use crate::counts::{bits_for, octets_for};
use crate::numbers::{above, in_range, unsigned_part};
use crate::widths::place::{Place, padded, passed};

/// The place after an extension bit, which stands where the type is extensible.
#[tactic(auto, unfolding(crate::specs::widths::Ends::end_of))]
pub fn after_extension(place: Place, extensible: bool) -> Place
    ensures { (is_extended : Bool) → Ends place result (λ p. extension_fields p extensible is_extended) }
{
    if extensible { passed(place, 1) } else { place }
}

/// The place after a number of which more than two octets may be needed.
#[tactic(auto, unfolding(crate::specs::widths::Ends::end_of))]
fn after_large(place: Place, span: u64, number: u64) -> Place
    ensures { Ends place result (λ p. large_fields p span number) }
{
    let width = bits_for(u64::from(octets_for(span) - 1));
    let begin = padded(passed(place, u128::from(width)));
    passed(begin, u128::from(8 * octets_for(number)))
}

/// The place after a number from 0 to the span.
#[tactic(auto, unfolding(aper_defs::specs::Parts::number_fields, crate::specs::widths::Ends::end_of))]
pub fn after_number(place: Place, span: u64, number: u64) -> Place
    ensures { (role : Role) → Ends place result (λ p. number_fields p role span number) }
{
    if span == 0 {
        return place;
    }
    if span < 255 {
        return passed(place, u128::from(bits_for(span)));
    }
    if span == 255 {
        return passed(padded(place), 8);
    }
    if span < 65536 {
        return passed(padded(place), 16);
    }
    after_large(place, span, number)
}

/// The place after a number outside its range.
#[tactic(auto, unfolding(crate::specs::widths::Ends::end_of))]
fn after_outside(place: Place, number: i128) -> Place
    requires { is_signed number ≡ true }
    ensures { (low high : ℤ) → Ends place result (λ p. outside_fields p low high number) }
{
    let count = octets_for(2 * unsigned_part(number));
    passed(padded(place), u128::from(8 + 8 * count))
}

/// The place after an INTEGER from `low` to `high`, or where it is extensible another number of 64 bits.
#[tactic(auto, unfolding(aper_defs::specs::Parts::integer_fields), using(proof_aper::proofs::answers::NumberFacts::in_range_low, proof_aper::proofs::answers::NumberFacts::above_at_most))]
pub fn after_integer(place: Place, low: i128, high: i128, extensible: bool, number: i128) -> Place
    requires order { le_z low high ≡ true }
    requires span { above low high < 2 ^ 64 }
    requires member { is_number_of low high extensible number ≡ true }
    ensures { Ends place result (λ p. integer_fields p low high extensible number) }
{
    let begin = after_extension(place, extensible);
    if in_range(low, high, number) {
        return after_number(begin, above(low, high), above(low, number));
    }
    after_outside(begin, number)
}

/// The place after an index among so many, or one past them.
#[tactic(auto, unfolding(aper_defs::specs::Parts::index_fields, crate::specs::widths::Ends::end_of))]
pub fn after_index(place: Place, count: usize, extensible: bool, index: usize) -> Place
    ensures { Ends place result (λ p. index_fields p count extensible index) }
{
    let begin = after_extension(place, extensible);
    if index < count {
        return after_number(begin, count as u64 - 1, index as u64);
    }
    passed(begin, 7)
}
