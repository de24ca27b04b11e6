//! Whether values are of a type of a module, and how many octets their spellings have (BASIC-PER aligned, ITU-T X.691).

ghost use Rattle.std.specs.Prelude.{◌≡◌, ◌↔◌, ◌<◌, ◌^◌, ◌-◌, IsTrue, [], length, min};
ghost use Rattle.aper_defs.specs.Bits.{octet_count};
ghost use Rattle.aper_defs.specs.Fields.{Path};
ghost use Rattle.aper_defs.specs.Layouts.{layout};
ghost use Rattle.aper_defs.specs.Membership.{FitsOpen, Has};
ghost use Rattle.aper_defs.specs.Spelling.{whole_layout};
ghost use Rattle.aper_values.specs.types.Types.{tree};
ghost use Rattle.aper_values.specs.Views.{view};

mod values;

use crate::value_checks::values::value_end;
use aper_fields::widths::place::octet_count;
use aper_values::value::Value;
use asn1_module::Module;
use asn1_syntax::types::TypeId;

/// The most octets that an open type holds.
const OPEN_LIMIT: u128 = 16383;

/// Whether a value is one of a type.
pub fn is_value(m: &Module, id: TypeId, value: &Value) -> bool
    requires { id.number < length m.now.nodes }
    ensures { IsTrue result ↔ Has [] (tree m.now id.number) (view value.now) }
{
    value_end(m, id, value, 0).is_some()
}

/// How many octets a value's spelling has, or 2^64 - 1 where they are more.
pub fn spelled_length(m: &Module, id: TypeId, value: &Value) -> u64
    requires inside { id.number < length m.now.nodes }
    requires member { Has [] (tree m.now id.number) (view value.now) }
    ensures { result ≡ min (octet_count (whole_layout (tree m.now id.number) (view value.now))) (2 ^ 64 - 1) }
{
    match value_end(m, id, value, 0) {
        Some(end) => octet_count(end).min(u128::from(u64::MAX)) as u64,
        None => unreachable!(),
    }
}

/// Whether an open type holds a value: whether its complete encoding has at most 16,383 octets.
pub fn fits_open(m: &Module, id: TypeId, value: &Value) -> bool
    requires inside { id.number < length m.now.nodes }
    requires member { Has [] (tree m.now id.number) (view value.now) }
    ensures { (p : Path) → IsTrue result
        ↔ FitsOpen p (layout p (tree m.now id.number) (view value.now)) }
{
    match value_end(m, id, value, 0) {
        Some(end) => octet_count(end) <= OPEN_LIMIT,
        None => unreachable!(),
    }
}
