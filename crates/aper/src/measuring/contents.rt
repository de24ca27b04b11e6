//! What isn't known, and open types.

ghost use Rattle.std.specs.Prelude.{◌≡◌, ◌++◌, List, Option};
ghost use Rattle.aper_defs.specs.Fields.{Field, Path};
ghost use Rattle.aper_defs.specs.Values.{raw};
ghost use Rattle.aper_values.specs.Views.{view};
ghost use Rattle.aper_fields.specs.widths.Ends.{end_of};
ghost use Rattle.aper.specs.measuring.Measured.{RawMeasured, Fitted};

use aper_fields::widths::place::{Place, after_contents, octet_count};
use aper_values::value::Value;

/// The most octets of an open type's contents.
const CONTENTS_LIMIT: usize = 16383;

/// The place after octets of what isn't known, in place of an open type's contents.
pub fn raw_end(value: &Value, place: Place) -> Option<Place>
    ensures { RawMeasured (view value.now) place result }
{
    match value {
        Value::Raw(octets) => octets_end(octets.as_slice(), place),
        _ => None,
    }
}

/// The place after so many octets of what isn't known: 1 to 16,383.
fn octets_end(contents: &[u8], place: Place) -> Option<Place>
    ensures { RawMeasured (raw contents.now) place result }
{
    if contents.is_empty() || contents.len() > CONTENTS_LIMIT {
        return None;
    }
    Some(after_contents(place, contents.len() as u32))
}

/// The place after an open type whose contents end at a place, where they are put from 0 on.
pub fn opened_end(contents: Place, place: Place) -> Option<Place>
    ensures { (inside : Path) (fields : List Field) → end_of 0 fields ≡ contents → Fitted inside fields place result }
{
    let count = octet_count(contents);
    if count > CONTENTS_LIMIT as u128 {
        return None;
    }
    Some(after_contents(place, count as u32))
}
