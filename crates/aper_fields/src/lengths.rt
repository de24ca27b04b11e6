//! Length determinants.

ghost use Rattle.std.specs.Prelude.{◌≡◌, ℕ, ◌+◌, ◌%◌, ◌<◌, ◌≤◌, ◌^◌, [], ◌∷◌, false, length, OnOk};
ghost use Rattle.aper_defs.specs.Fields.{Extent, asked, extent, opening};
ghost use Rattle.aper_defs.specs.Bits.{extent_width, extent_number, part_units};
ghost use Rattle.aper_fields.specs.Following.{Follows};

use bits_core::writer::BitWriter;
use gnb_types::items::Memory;

/// The units of a part; a string with so many or more has parts.
pub const PART_UNITS: usize = 16384;

/// The bits of a length determinant.
pub fn extent_width(count: u32) -> u32
    ensures { result ≡ extent_width count }
{
    if (128..16384).contains(&count) { 16 } else { 8 }
}

/// The number that they are: below 128 the length itself; below 16,384 the length after the bits 10; else the bits 11 and how many
/// times 16,384 units follow.
fn extent_number(count: u32) -> u64
    requires { count < 1048576 }
    ensures { result ≡ extent_number count }
{
    if count < 128 {
        return u64::from(count);
    }
    if count < 16384 {
        return 0x8000 + u64::from(count);
    }
    u64::from(0xC0 + count / 16384)
}

/// A length, or how many units follow in the next part, at an octet's beginning.
pub fn put_extent(out: &mut BitWriter, count: u32) -> Result<(), Memory>
    requires { count < 1048576 }
    ensures going { OnOk result (out.new.failed ≡ false) }
    ensures follows { OnOk result ((bounds : Extent)
        → Follows out.old out.new (λ p. asked p (extent bounds) count ∷ [])) }
    ensures opens { OnOk result (Follows out.old out.new (λ p. asked p opening count ∷ [])) }
    ensures moves { OnOk result (length out.new.bits ≡ length out.old.bits + extent_width count) }
{
    out.put_bits(extent_number(count), extent_width(count))
}
