//! Objects, lists and containers as a whole, after their members.

ghost use Rattle.std.specs.Prelude.{◌≡◌, ◌∷◌, ◌++◌, ◌&&◌, ◌+◌, ◌<◌, ◌^◌, [], ℕ, List};
ghost use Rattle.serde_json.specs.View.{members_view};
ghost use Rattle.aper_defs.specs.Fields.{Path};
ghost use Rattle.aper_defs.specs.Fields as ways;
ghost use Rattle.aper_defs.specs.Values.{Value as SeenValue, Options, components, chosen, message};
ghost use Rattle.aper_values.specs.Views.{options_view};
ghost use Rattle.json_defs.specs.Named.{Named};
ghost use Rattle.json_defs.specs.Members.{are_keys_among, has_member, member_of, dots};
ghost use Rattle.json_defs.specs.Shown.{keys_of};
ghost use Rattle.json_defs.specs.Readings.{past_in, past_raw_in};
ghost use Rattle.json_defs.specs.Demands.{Demand, shape, past_demands, only_member};
ghost use Rattle.json_defs.specs.type_defs.Types.{parts_with};
ghost use Rattle.json_read.specs.wholes.Reads.{ReadsAs, ReadsAdditions};

use crate::wholes::contents::{alone, inside};
use crate::wholes::heads::BodyHead;
use aper_frames::Step;
use aper_values::value::{OptValues, Value};
use asn1_syntax::types::Component;
use json_fields::members::members::{Members, are_keys, member};
use json_fields::simple::past::past_in;
use json_fields::simple::refusal::{Refusal, range, shape, under};
use std::alloc::Global;

/// Additions as they were read.
#[derive(Drop)]
pub struct Additions<'m> {
    pub values: OptValues,
    /// The first that no open type holds.
    pub unfit: Option<Step<'m>>,
}

/// A SEQUENCE, where its object has at most the members of the type, and open types hold its additions.
pub fn sequence<'m>(
    alloc: Global,
    extensible: bool,
    parts: &[Component],
    members: &Members,
    root: OptValues,
    asked: Result<Additions<'m>, Refusal<'m>>,
) -> Result<Value, Refusal<'m>>
    ensures { (of : ℕ → Named) (listed opens : Path → List Demand) (more : Options)
        → ReadsAdditions listed opens more asked.entry
        → ReadsAs (λ p. listed p ++ (shape p (are_keys_among (keys_of extensible (parts_with of parts.now))
        (members_view members.now.entries)) ∷ opens p)) (components (options_view root.items) more) result }
{
    let Additions { values, unfit } = asked?;
    if !are_keys(extensible, parts, members) {
        return Err(shape(alloc));
    }
    if let Some(step) = unfit {
        return Err(under(range(alloc), step));
    }
    Ok(Value::Seq {
        root,
        additions: values,
    })
}

/// The alternative with this place.
pub fn alternative<'m>(
    alloc: Global,
    index: u32,
    asked: Result<Value, Refusal<'m>>,
) -> Result<Value, Refusal<'m>>
    ensures { (of : Path → List Demand) (v : SeenValue) → ReadsAs of v asked.entry
        → ReadsAs of (chosen index v) result }
{
    Ok(Value::Choice(index, Box::new(alloc, asked?)?))
}

/// An alternative past the last that has a name: `first` is the place of the first of them, and so many may be there.
pub fn past_alternative<'m>(
    alloc: Global,
    extensible: bool,
    first: u32,
    room: u64,
    members: &Members,
) -> Result<Value, Refusal<'m>>
    requires { first + room < 2 ^ 32 }
    ensures { ReadsAs (λ p. shape p (extensible && has_member dots (members_view members.now.entries))
        ∷ (past_demands p room (member_of dots (members_view members.now.entries))
        ++ only_member p (members_view members.now.entries)))
        (chosen (first + past_in (member_of dots (members_view members.now.entries)))
        (past_raw_in (member_of dots (members_view members.now.entries)))) result }
{
    if !extensible {
        return Err(shape(alloc));
    }
    let Some(d) = member(members, b"...") else {
        return Err(shape(alloc));
    };
    let (past, octets) = past_in(alloc, room, d)?;
    alternative(
        alloc,
        first + past as u32,
        alone(alloc, members, Ok(octets)),
    )
}

/// A message of an outcome that is known.
pub fn message<'m>(
    alloc: Global,
    outcome: u32,
    head: BodyHead<'_>,
    asked: Result<Value, Refusal<'m>>,
) -> Result<Value, Refusal<'m>>
    ensures { (of : Path → List Demand) (v : SeenValue) → ReadsAs of v asked.entry
        → ReadsAs (λ p. of (ways.outcome outcome ∷ p)) (message outcome head.entry.code head.entry.criticality v) result }
{
    let body = Box::new(alloc, inside(asked, Step::Outcome(outcome))?)?;
    Ok(Value::Pdu {
        outcome,
        code: head.code,
        criticality: head.criticality,
        body,
    })
}

/// A message of an outcome past those that have names.
pub fn past_message<'m>(alloc: Global, members: &Members) -> Result<Value, Refusal<'m>>
    ensures { ReadsAs (λ p. shape p (has_member dots (members_view members.now.entries))
        ∷ (past_demands p 64 (member_of dots (members_view members.now.entries))
        ++ only_member p (members_view members.now.entries)))
        (message (3 + past_in (member_of dots (members_view members.now.entries))) 0 0
        (past_raw_in (member_of dots (members_view members.now.entries)))) result }
{
    let Some(d) = member(members, b"...") else {
        return Err(shape(alloc));
    };
    let (past, octets) = past_in(alloc, 64, d)?;
    let body = Box::new(alloc, alone(alloc, members, Ok(octets))?)?;
    Ok(Value::Pdu {
        outcome: 3 + past as u32,
        code: 0,
        criticality: 0,
        body,
    })
}
