//! Modules.

ghost use Rattle.std.specs.Prelude.{◌≡◌, length};
ghost use Rattle.asn1_syntax.specs.types.inside.Reading.{Gives};
ghost use Rattle.asn1_syntax.specs.assignments.Module.{is_type};
ghost use Rattle.asn1_syntax.specs.assignments.inside.Module.{Parts, has_all_types, is_assigned, new_assignment_at, ie_body_at, procedure_body_at, type_body_at, body_at, assignment_at, module_turn_at, assignments_at, header_at, syntax_at, syntax_of};

use crate::assignments::assigned::Assigned;
use crate::assignments::assignment::{Assignment, Body, Syntax};
use crate::assignments::sets::{ie_set, procedure_set};
use crate::types::{Items, ModuleReason, Node, ReadError, Reader};
use asn1_tokens::{Sign, Word};
use gnb_types::octets::Octets;
use std::alloc::Global;

impl Assignment {
    /// It is that of a type.
    pub fn is_type(&self) -> bool
        ensures { result ≡ is_type self.now }
    {
        match self.body {
            Body::Type(_) => true,
            Body::IeSet(_) | Body::ProcedureSet(_) => false,
        }
    }
}

/// Takes a name that none of these has. The name of a type is outside the bounds where these have all types, whether one of
/// them has it or not.
#[tactic(auto, unfolding(crate::specs::assignments::inside::Module::new_assignment_at))]
fn new_assignment(reader: &mut Reader, assignments: &Assigned) -> Result<Octets, ReadError>
    ensures { Gives (λ name. (name, reader.new)) result (new_assignment_at assignments.now reader.old) }
{
    let bounds = reader.fault(ModuleReason::Bounds);
    let twice = reader.fault(ModuleReason::Twice);
    let name = reader.upper()?;
    if reader.begins_with_sign(Sign::Assignment) && assignments.has_all_types() {
        return Err(ReadError::Fault(bounds));
    }
    if assignments.is_assigned(name.as_slice()) {
        return Err(ReadError::Fault(twice));
    }
    Ok(name)
}

#[tactic(auto, unfolding(crate::specs::assignments::inside::Module::ie_body_at))]
fn ie_body(
    reader: &mut Reader,
    alloc: Global,
    turns: u64,
    nodes: &mut Items<Node>,
) -> Result<Body, ReadError>
    ensures { Gives (λ body. (body, nodes.new, reader.new)) result (ie_body_at turns nodes.old reader.old) }
{
    reader.word(Word::ProtocolIes)?;
    Ok(Body::IeSet(ie_set(reader, alloc, turns, nodes)?))
}

#[tactic(auto, unfolding(crate::specs::assignments::inside::Module::procedure_body_at))]
fn procedure_body(
    reader: &mut Reader,
    alloc: Global,
    turns: u64,
    nodes: &mut Items<Node>,
) -> Result<Body, ReadError>
    ensures { Gives (λ body. (body, nodes.new, reader.new)) result (procedure_body_at turns nodes.old reader.old) }
{
    reader.word(Word::ElementaryProcedure)?;
    Ok(Body::ProcedureSet(procedure_set(reader, alloc, turns, nodes)?))
}

#[tactic(auto, unfolding(crate::specs::assignments::inside::Module::type_body_at))]
fn type_body(reader: &mut Reader, turns: u64, nodes: &mut Items<Node>) -> Result<Body, ReadError>
    ensures { Gives (λ body. (body, nodes.new, reader.new)) result (type_body_at turns nodes.old reader.old) }
{
    reader.sign(Sign::Assignment)?;
    Ok(Body::Type(reader.definition(turns, nodes)?))
}

/// Takes what a name stands for.
#[tactic(auto, unfolding(crate::specs::assignments::inside::Module::body_at))]
fn body(
    reader: &mut Reader,
    alloc: Global,
    turns: u64,
    nodes: &mut Items<Node>,
) -> Result<Body, ReadError>
    ensures { Gives (λ body. (body, nodes.new, reader.new)) result (body_at turns nodes.old reader.old) }
{
    if reader.begins_with(Word::ProtocolIes) {
        return ie_body(reader, alloc, turns, nodes);
    }
    if reader.begins_with(Word::ElementaryProcedure) {
        return procedure_body(reader, alloc, turns, nodes);
    }
    type_body(reader, turns, nodes)
}

/// Takes one more assignment.
#[tactic(auto, unfolding(crate::specs::assignments::inside::Module::assignment_at))]
fn assignment(
    reader: &mut Reader,
    alloc: Global,
    turns: u64,
    assignments: &mut Assigned,
    nodes: &mut Items<Node>,
) -> Result<(), ReadError>
    ensures { Gives (λ _. (record { assignments = assignments.new; nodes = nodes.new }, reader.new)) result (assignment_at turns (record { assignments = assignments.old; nodes = nodes.old }) reader.old) }
{
    let place = reader.place();
    let name = new_assignment(reader, assignments)?;
    let body = body(reader, alloc, turns, nodes)?;
    let end = nodes.len();
    let new = Assignment {
        name,
        place,
        body,
        end,
    };
    assignments.push(alloc, new)?;
    Ok(())
}

/// Takes one more assignment, and answers whether there was one before the module's end.
#[tactic(auto, unfolding(crate::specs::assignments::inside::Module::module_turn_at))]
fn module_turn(
    reader: &mut Reader,
    alloc: Global,
    turns: u64,
    assignments: &mut Assigned,
    nodes: &mut Items<Node>,
) -> Result<bool, ReadError>
    ensures { Gives (λ more. (more, record { assignments = assignments.new; nodes = nodes.new }, reader.new)) result (module_turn_at turns (record { assignments = assignments.old; nodes = nodes.old }) reader.old) }
{
    if reader.begins_with(Word::End) {
        return Ok(false);
    }
    assignment(reader, alloc, turns, assignments, nodes)?;
    Ok(true)
}

/// Takes what stands before the assignments, and answers the module's name.
#[tactic(auto, unfolding(crate::specs::assignments::inside::Module::header_at))]
fn header(reader: &mut Reader) -> Result<Octets, ReadError>
    ensures { Gives (λ name. (name, reader.new)) result (header_at reader.old) }
{
    let name = reader.upper()?;
    reader.word(Word::Definitions)?;
    reader.word(Word::Automatic)?;
    reader.word(Word::Tags)?;
    reader.sign(Sign::Assignment)?;
    reader.word(Word::Begin)?;
    Ok(name)
}

/// Takes the assignments of a module, up to its last word, in at most so many turns.
#[tactic(auto, using(crate::proofs::types::Loops::repeat_turn, crate::proofs::types::Loops::repeat_end), unfolding(crate::specs::assignments::inside::Module::assignments_at))]
fn assignments(
    reader: &mut Reader,
    alloc: Global,
    turns: u64,
    nodes: &mut Items<Node>,
) -> Result<Items<Assignment>, ReadError>
    ensures { Gives (λ found. (record { assignments = found; nodes = nodes.new }, reader.new)) result (assignments_at turns nodes.old reader.old) }
{
    let mut found = Assigned::new(alloc);
    for _ in 0..turns {
        if !module_turn(reader, alloc, turns, &mut found, nodes)? {
            return Ok(found.into_items());
        }
    }
    Err(reader.unexpected())
}

/// Takes a module, up to its last word, in at most so many turns.
#[tactic(auto, unfolding(crate::specs::assignments::inside::Module::syntax_at))]
fn syntax(reader: &mut Reader, alloc: Global, turns: u64) -> Result<Syntax, ReadError>
    ensures { Gives (λ syntax. syntax) result (syntax_at turns reader.old) }
{
    let name = header(reader)?;
    let mut nodes = Items::new(alloc);
    let assignments = assignments(reader, alloc, turns, &mut nodes)?;
    let end = reader.end();
    Ok(Syntax {
        name,
        assignments,
        nodes,
        end,
    })
}

/// The module at the front of a text, or the text's first fault, without a look at what its names refer to.
pub fn read_syntax(alloc: Global, text: &[u8]) -> Result<Syntax, ReadError>
    ensures { Gives (λ syntax. syntax) result (syntax_of text.now) }
{
    let mut reader = Reader::new(alloc, text)?;
    // A turn takes an item at least, and an item an octet.
    syntax(&mut reader, alloc, text.len() as u64 + 1)
}
