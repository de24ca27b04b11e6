//! The encoder of aligned PER: a value of a type of a module as the octets that spell it (BASIC-PER aligned, ITU-T X.691).

ghost use Rattle.std.specs.Prelude.{◌<◌, ◌≤◌, [], length, IfOk};
ghost use Rattle.aper_defs.specs.Bits.{octet_count};
ghost use Rattle.aper_defs.specs.Membership.{Has};
ghost use Rattle.aper_defs.specs.Spelling.{Spells, spelling_limit, whole_layout};
ghost use Rattle.aper_values.specs.types.Types.{tree};
ghost use Rattle.aper_values.specs.Views.{view};

mod values;

use crate::encoding::values::put_value;
use aper_fields::contents::completed;
use aper_values::value::Value;
use asn1_module::Module;
use asn1_syntax::types::TypeId;
use bits_core::writer::BitWriter;
use gnb_types::octets::{Memory, Octets};
use std::alloc::Global;

/// The one spelling of a value of a type. Out of memory is the one error.
pub fn encode(alloc: Global, m: &Module, id: TypeId, value: &Value) -> Result<Octets, Memory>
    requires inside { id.number < length m.now.nodes }
    requires member { Has [] (tree m.now id.number) (view value.now) }
    requires short { octet_count (whole_layout (tree m.now id.number) (view value.now)) ≤ spelling_limit }
    ensures { IfOk result (λ octets. Spells (tree m.now id.number) (view value.now) octets) }
{
    let mut out = BitWriter::new(alloc);
    put_value(alloc, &mut out, m, id, value)?;
    completed(out)
}
