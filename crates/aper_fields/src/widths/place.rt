//! Places in an encoding.

ghost use Rattle.std.specs.Prelude.{◌≡◌, ℕ, ◌+◌, ◌^◌, ◌≤◌, [], ◌∷◌, ◌++◌, List, length, min, None};
ghost use Rattle.bits_core.specs.Bits.{pad_of};
ghost use Rattle.aper_defs.specs.Fields.{Path, Field, asked, pad, run, extent, whole, octet};
ghost use Rattle.aper_defs.specs.Bits.{closed, octet_count, open_fields};
ghost use Rattle.aper_fields.specs.widths.Ends.{end_of, passed, place_limit};

use crate::lengths::extent_width;

/// How many bits stand before a field: at most those of 2^64 octets, which stand for more as well.
pub type Place = u128;

const PLACE_LIMIT: Place = 1 << 67;

/// The place after so many bits.
#[tactic(auto, unfolding(crate::specs::widths::Ends::place_limit))]
pub fn passed(place: Place, width: u128) -> Place
    ensures { result ≡ passed place width }
{
    place.saturating_add(width).min(PLACE_LIMIT).max(place)
}

/// The beginning of an octet, after zero bits up to it.
pub fn padded(place: Place) -> Place
    ensures { result ≡ passed place (pad_of place) }
{
    passed(place, (8 - place % 8) % 8)
}

/// The place after an open type with so many octets in it, whether they are a complete encoding or aren't known.
pub fn after_contents(place: Place, count: u32) -> Place
    requires { count ≤ 16383 }
    ensures raw { (p inside : Path) (octets : List ℕ) (rest : List Field) → length octets ≡ count
        → end_of place (asked p pad 0 ∷ asked p (extent (whole 1 16383 None)) (length octets)
        ∷ run inside octet octets ∷ rest) ≡ end_of result rest }
    ensures opened { (p inside : Path) (fields rest : List Field) → octet_count (closed inside fields) ≡ count
        → end_of place (open_fields p inside fields ++ rest) ≡ end_of result rest }
{
    let begin = passed(padded(place), u128::from(extent_width(count)));
    passed(begin, u128::from(8 * count))
}

/// How many octets the complete encoding of fields takes that end at a place: one at least. Those of more than 2^64 are 2^64.
pub fn octet_count(end: Place) -> u128
    ensures { (p : Path) (fields : List Field) → end_of 0 fields ≡ end
        → result ≡ min (octet_count (closed p fields)) (2 ^ 64) }
{
    if end == 0 { 1 } else { end.div_ceil(8) }
}
