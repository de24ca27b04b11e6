//! The named addition of XnAP: the name of the source in HandoverRequest, in version 2 of the profile.

ghost use Rattle.std.specs.Prelude.{◌≡◌, IfOk};
ghost use Rattle.aper_values.specs.Views.{view, options_view};
ghost use Rattle.message_defs.specs.Places.{additions_in};
ghost use Rattle.message_defs.specs.Xn.{origin_additions, to_origin};

use aper_values::value::{OptValues, Value};
use gnb_types::items::Memory;
use gnb_types::octets::Octets;
use message_values::fields::from_text;
use std::alloc::Global;

/// The additions of HandoverRequest: the name of the source, where there is one, and else none.
pub fn origin_additions(alloc: Global, origin: &Option<Octets>) -> Result<OptValues, Memory>
    ensures { IfOk result (λ more. options_view more.items ≡ origin_additions origin.now) }
{
    match origin {
        Some(name) => {
            let name = from_text(alloc, name)?;
            Ok(Vec::from_array(alloc, [Some(name)])?)
        }
        None => Ok(Vec::new(alloc)),
    }
}

/// The additions of a message's body.
pub fn additions_in(body: &Value) -> &[Option<Value>]
    ensures { options_view result.now ≡ additions_in (view body.now) }
{
    match body {
        Value::Seq { additions, .. } => additions.as_slice(),
        _ => &[],
    }
}

/// The name of the source, where it is the first addition.
pub fn to_origin(alloc: Global, additions: &[Option<Value>]) -> Result<Option<Octets>, Memory>
    ensures { IfOk result (λ origin. origin ≡ to_origin (options_view additions.now)) }
{
    match additions.first() {
        Some(Some(Value::Text(characters))) => Ok(Some(Octets::from_slice(
            alloc,
            characters.as_slice(),
        )?)),
        _ => Ok(None),
    }
}
