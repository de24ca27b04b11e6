//! One field.

ghost use Rattle.std.specs.Prelude.{◌≡◌, ℕ, ℤ, ◌%◌, ◌*◌, ◌<◌, ◌≤◌, ◌^◌, [], ◌∷◌, false, length, OnOk, List};
ghost use Rattle.aper_defs.specs.Trees.{Slot};
ghost use Rattle.aper_defs.specs.Fields.{Role, Extent, asked, flag, constrained, digits, signed, small, extent, addition_bits, ie_count, ie_id, opening, pad};
ghost use Rattle.bits_core.specs.Bits.{bit_value};
ghost use Rattle.aper_fields.specs.Following.{Follows};

use bits_core::writer::BitWriter;
use gnb_types::items::Memory;

/// A bit of its own.
pub fn put_flag(out: &mut BitWriter, bit: bool) -> Result<(), Memory>
    ensures going { OnOk result (out.new.failed ≡ false) }
    ensures follows { OnOk result (Follows out.old out.new (λ p. asked p flag (bit_value bit) ∷ [])) }
{
    out.put_bits(u64::from(bit), 1)
}

/// Zero bits up to the next octet.
pub fn put_pad(out: &mut BitWriter) -> Result<(), Memory>
    ensures going { OnOk result (out.new.failed ≡ false) }
    ensures follows { OnOk result (Follows out.old out.new (λ p. asked p pad 0 ∷ [])) }
    ensures aligned { OnOk result (length out.new.bits % 8 ≡ 0) }
{
    out.align()
}

/// A number of a known range, in so many bits.
pub fn put_constrained(out: &mut BitWriter, width: u32, number: u64) -> Result<(), Memory>
    requires width { width ≤ 64 }
    requires fits { number < 2 ^ width }
    ensures going { OnOk result (out.new.failed ≡ false) }
    ensures follows { OnOk result ((role : Role) (most : ℕ)
        → Follows out.old out.new (λ p. asked p (constrained role width most) number ∷ [])) }
{
    out.put_bits(number, width)
}

/// A number of a known range, in so many octets.
pub fn put_digits(out: &mut BitWriter, count: u32, number: u64) -> Result<(), Memory>
    requires count { count ≤ 8 }
    requires fits { number < 2 ^ (8 * count) }
    ensures going { OnOk result (out.new.failed ≡ false) }
    ensures follows { OnOk result ((most : ℕ)
        → Follows out.old out.new (λ p. asked p (digits count most) number ∷ [])) }
{
    out.put_bits(number, 8 * count)
}

/// A number outside its range, in so many octets of two's complement.
pub fn put_signed(out: &mut BitWriter, count: u32, number: u64) -> Result<(), Memory>
    requires count { count ≤ 8 }
    requires fits { number < 2 ^ (8 * count) }
    ensures going { OnOk result (out.new.failed ≡ false) }
    ensures follows { OnOk result ((low high : ℤ)
        → Follows out.old out.new (λ p. asked p (signed count low high) number ∷ [])) }
{
    out.put_bits(number, 8 * count)
}

/// A number that is normally small.
pub fn put_small(out: &mut BitWriter, number: u64) -> Result<(), Memory>
    requires { number < 64 }
    ensures going { OnOk result (out.new.failed ≡ false) }
    ensures follows { OnOk result ((role : Role)
        → Follows out.old out.new (λ p. asked p (small role) number ∷ [])) }
{
    out.put_bits(number, 7)
}

/// A bit for each of so many additions, as a number.
pub fn put_addition_bits(out: &mut BitWriter, count: u32, bits: u64) -> Result<(), Memory>
    requires count { count ≤ 64 }
    requires fits { bits < 2 ^ count }
    ensures going { OnOk result (out.new.failed ≡ false) }
    ensures follows { OnOk result (Follows out.old out.new (λ p. asked p (addition_bits count) bits ∷ [])) }
{
    out.put_bits(bits, count)
}

/// How many information elements follow.
pub fn put_ie_count(out: &mut BitWriter, count: u16) -> Result<(), Memory>
    ensures going { OnOk result (out.new.failed ≡ false) }
    ensures follows { OnOk result ((least : ℕ)
        → Follows out.old out.new (λ p. asked p (ie_count least) count ∷ [])) }
{
    out.put_bits(u64::from(count), 16)
}

/// The id of an information element.
pub fn put_ie_id(out: &mut BitWriter, id: u16) -> Result<(), Memory>
    ensures going { OnOk result (out.new.failed ≡ false) }
    ensures follows { OnOk result ((known left : List Slot) (after : ℕ)
        → Follows out.old out.new (λ p. asked p (ie_id known left after) id ∷ [])) }
{
    out.put_bits(u64::from(id), 16)
}
