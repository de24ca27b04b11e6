//! The steps from a text to a value.

ghost use Rattle.std.specs.Prelude.{List};
ghost use Rattle.aper_defs.specs.Fields.{Path};
ghost use Rattle.aper_defs.specs.Values.{Value as SeenValue};
ghost use Rattle.json_defs.specs.Demands.{Demand};
ghost use Rattle.json_fields.specs.simple.Answers.{Tells};
ghost use Rattle.json_read.specs.wholes.Reads.{ReadsAs};
ghost use Rattle.values_json.specs.inside.Answered.{IsTreeOf, IsRefusedAs, IsAnswered};

use crate::error::JsonError;
use aper::path_text;
use aper_values::value::Value;
use json_defs::JsonFault;
use json_fields::simple::refusal::Refusal;
use serde_json::Value as Json;
use std::alloc::Global;

/// The tree of a text of JSON.
pub(crate) fn tree_of(alloc: Global, text: &[u8]) -> Result<Json, JsonError>
    ensures { IsTreeOf text.now result }
{
    match Json::from_slice(alloc, text) {
        Ok(d) => Ok(d),
        Err(error) => {
            if error.is_memory() {
                return Err(JsonError::Memory);
            }
            Err(JsonError::NotJson)
        }
    }
}

/// The same refusal with its way as text.
fn refused(alloc: Global, refusal: Refusal<'_>) -> JsonError
    ensures { (of : Path → List Demand) → Tells of refusal.entry → IsRefusedAs of result }
{
    let Refusal::Fault { fault, path } = refusal else {
        return JsonError::Memory;
    };
    let mut path = path;
    path.reverse();
    let Ok(path) = path_text(alloc, path.as_slice()) else {
        return JsonError::Memory;
    };
    match fault {
        JsonFault::Shape => JsonError::Shape { path },
        JsonFault::Range => JsonError::Range { path },
    }
}

/// The same answer with its way as text.
pub(crate) fn answered(alloc: Global, asked: Result<Value, Refusal<'_>>) -> Result<Value, JsonError>
    ensures { (of : Path → List Demand) (v : SeenValue) → ReadsAs of v asked.entry → IsAnswered of v result }
{
    match asked {
        Ok(value) => Ok(value),
        Err(refusal) => Err(refused(alloc, refusal)),
    }
}
