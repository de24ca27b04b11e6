//! Whole values.

ghost use Rattle.std.specs.Prelude.{◌<◌, length, IfOk};
ghost use Rattle.aper_defs.specs.Spelling.{Spells};
ghost use Rattle.aper_values.specs.types.Types.{tree};
ghost use Rattle.aper_values.specs.Views.{view};
ghost use Rattle.aper.specs.Refusals.{OnRefusal, IsRefused, IsFirstWrong};
ghost use Rattle.aper.specs.inside.Printed.{IsPrinted};

use crate::error::DecodeError;
use crate::path::path_text;
use aper_decode::DecodeError as Undecoded;
use aper_values::value::Value;
use asn1_module::{Module, TypeId};
use std::alloc::Global;

/// The value of a type of a module that these octets spell.
pub fn decode(alloc: Global, m: &Module, id: TypeId, octets: &[u8]) -> Result<Value, DecodeError>
    requires { id.number < length m.now.nodes }
    ensures value { IfOk result (λ v. Spells (tree m.now id.number) (view v) octets.now) }
    ensures refused { OnRefusal result (IsRefused (tree m.now id.number) octets.now) }
    ensures first_wrong { OnRefusal result (IsFirstWrong (tree m.now id.number) octets.now) }
{
    // A module that was read has types within the profile's bounds alone, of which the laws of spellings speak.
    let _ = m.name();
    match aper_decode::decode(alloc, m, id, octets) {
        Ok(value) => Ok(value),
        Err(error) => Err(printed(alloc, error)),
    }
}

/// The same error with its way as text.
fn printed(alloc: Global, error: Undecoded) -> DecodeError
    ensures { IsPrinted error.entry result }
{
    match error {
        Undecoded::Memory => DecodeError::Memory,
        Undecoded::Refused { bit, reason, path } => match path_text(alloc, path.as_slice()) {
            Ok(path) => DecodeError::Refused { bit, reason, path },
            Err(_) => DecodeError::Memory,
        },
    }
}
