//! What goes on with a value that was asked for: the way to it, an open type around it, and the other members of its object.

ghost use Rattle.std.specs.Prelude.{◌≡◌, ◌<◌, ◌∷◌, ◌++◌, [], List, IfOk, length, false};
ghost use Rattle.serde_json.specs.Data.{Data};
ghost use Rattle.serde_json.specs.View.{members_view};
ghost use Rattle.aper_defs.specs.Fields.{Path};
ghost use Rattle.aper_defs.specs.Membership.{Has};
ghost use Rattle.aper_defs.specs.Values.{Value as SeenValue};
ghost use Rattle.aper_values.specs.Views.{view};
ghost use Rattle.aper_values.specs.types.Types.{tree};
ghost use Rattle.aper_frames.specs.Paths.{step_view, step_put};
ghost use Rattle.json_defs.specs.Members.{criticality_key, value_key, are_keys_among, member_of};
ghost use Rattle.json_defs.specs.Readings.{value_of, raw_of, first_of};
ghost use Rattle.json_defs.specs.Demands.{Demand, shape, range, fits_open, first_fault, only_member, raw_member};
ghost use Rattle.json_defs.specs.type_defs.Types.{named};
ghost use Rattle.json_fields.specs.simple.Answers.{Tells};
ghost use Rattle.json_read.specs.wholes.Reads.{ReadsAs, HasAsked, unfit_at};

use aper::value_checks::fits_open;
use aper_frames::Step;
use aper_values::value::Value;
use asn1_module::Module;
use asn1_syntax::types::TypeId;
use json_fields::members::members::{Members, are_body_keys, member};
use json_fields::simple::past::is_alone;
use json_fields::simple::refusal::{Refusal, range, shape, under};
use json_fields::simple::simple::raw_in;
use std::alloc::Global;

/// What was asked for, where a refusal's way to it is one step longer.
pub fn inside<'m>(asked: Result<Value, Refusal<'m>>, step: Step<'m>) -> Result<Value, Refusal<'m>>
    ensures { (of : Path → List Demand) (v : SeenValue) → ReadsAs of v asked.entry
        → ReadsAs (λ p. of (step_view step.entry ∷ p)) v result }
{
    match asked {
        Ok(value) => Ok(value),
        Err(refusal) => Err(under(refusal, step)),
    }
}

/// Whether an open type holds a value.
fn is_held(m: &Module, id: TypeId, value: &Value) -> bool
    requires inside { id.number < length m.now.nodes }
    requires member { Has [] (tree m.now id.number) (view value.now) }
    ensures { (d : Data) (p : Path) → view value.now ≡ value_of (named m.now id.number) d
        → result ≡ fits_open p (named m.now id.number) d }
{
    fits_open(m, id, value)
}

/// Whether an open type holds what was asked for, if it was read.
pub fn is_fitting<'m>(m: &Module, id: TypeId, asked: &Result<Value, Refusal<'m>>) -> bool
    requires inside { id.number < length m.now.nodes }
    requires member { HasAsked (tree m.now id.number) asked.now }
    ensures { (d : Data) (p : Path) → IfOk asked.now (λ v. view v ≡ value_of (named m.now id.number) d
        → result ≡ fits_open p (named m.now id.number) d) }
{
    match asked {
        Ok(value) => is_held(m, id, value),
        Err(_) => true,
    }
}

/// Outside its bounds, one step further in where there is one.
fn range_at<'m>(alloc: Global, step: Option<Step<'m>>) -> Refusal<'m>
    ensures { Tells (λ p. range (step_put step.entry p) false ∷ []) result }
{
    match step {
        Some(step) => under(range(alloc), step),
        None => range(alloc),
    }
}

/// What was asked for, where an open type holds it. The open type is one step further in, where there is one.
pub fn held<'m>(
    alloc: Global,
    m: &Module,
    id: TypeId,
    step: Option<Step<'m>>,
    asked: Result<Value, Refusal<'m>>,
) -> Result<Value, Refusal<'m>>
    requires inside { id.number < length m.now.nodes }
    requires member { HasAsked (tree m.now id.number) asked }
    ensures { (d : Data) (of : Path → List Demand)
        → ReadsAs of (value_of (named m.now id.number) d) asked.entry
        → ReadsAs (λ p. of p
        ++ range (step_put step.entry p) (fits_open (step_put step.entry p) (named m.now id.number) d) ∷ [])
        (value_of (named m.now id.number) d) result }
{
    let value = asked?;
    if is_held(m, id, &value) {
        return Ok(value);
    }
    drop(value);
    Err(range_at(alloc, step))
}

/// The first addition that no open type holds, after one more.
pub fn first_unfit<'m>(unfit: Option<Step<'m>>, fits: bool, step: Step<'m>) -> Option<Step<'m>>
    ensures { (p : Path) → unfit_at p result
        ≡ first_of (unfit_at p unfit.entry) (first_fault (range (step_view step.entry ∷ p) fits ∷ [])) }
{
    match unfit {
        Some(first) => Some(first),
        None if fits => None,
        None => Some(step),
    }
}

/// What was asked for, where its object has no other member.
pub fn alone<'m>(
    alloc: Global,
    members: &Members,
    asked: Result<Value, Refusal<'m>>,
) -> Result<Value, Refusal<'m>>
    ensures { (of : Path → List Demand) (v : SeenValue) → ReadsAs of v asked.entry
        → ReadsAs (λ p. of p ++ only_member p (members_view members.now.entries)) v result }
{
    let value = asked?;
    if is_alone(members) {
        return Ok(value);
    }
    drop(value);
    Err(shape(alloc))
}

/// What was asked for, where its object has at most the members of an information element, or of a message's body.
pub fn keyed<'m>(
    alloc: Global,
    contents: &[u8],
    number: &[u8],
    members: &Members,
    asked: Result<Value, Refusal<'m>>,
) -> Result<Value, Refusal<'m>>
    ensures { (of : Path → List Demand) (v : SeenValue) → ReadsAs of v asked.entry
        → ReadsAs (λ p. of p ++ shape p (are_keys_among (contents.now ∷ criticality_key ∷ number.now ∷ [])
        (members_view members.now.entries)) ∷ []) v result }
{
    let value = asked?;
    if are_body_keys(contents, number, members) {
        return Ok(value);
    }
    drop(value);
    Err(shape(alloc))
}

/// The octets of what isn't known of an information element, or of a message.
pub fn unknown_in<'m>(alloc: Global, number: &[u8], members: &Members) -> Result<Value, Refusal<'m>>
    ensures { ReadsAs (λ p. raw_member p (criticality_key ∷ number.now ∷ []) (members_view members.now.entries))
        (raw_of (members_view members.now.entries)) result }
{
    let Some(d) = member(members, b"raw") else {
        return Err(shape(alloc));
    };
    keyed(alloc, b"raw", number, members, raw_in(alloc, d))
}
