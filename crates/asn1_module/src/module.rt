//! Modules.

ghost use Rattle.std.specs.Prelude.{◌≡◌, ◌==◌, ◌<◌, ◌≤◌, length, MatchResult, IfSome, slice_get, option_map, Some};
ghost use Rattle.asn1_defs.specs.Links.{IsInside, IesBelow, ProceduresBelow};
ghost use Rattle.asn1_defs.specs.Readings.{Reads, HasFault};
ghost use Rattle.asn1_module.specs.Refusals.{IsRefusal};
ghost use Rattle.asn1_defs.specs.Modules.{IsModule};
ghost use Rattle.asn1_defs.specs.Targets.{HasTarget, type_of, type_ids, find_type, type_name, is_body_of, ie_rows, ie_rows_of, procedure_rows, procedure_rows_of, definition_at, referred, all_of, element_rows, message_rows};
ghost use Rattle.asn1_module.specs.Numbers.{body_at, found_in};
ghost use Rattle.asn1_defs.specs.Numbers.{number_in};

use crate::error::ModuleError;
use crate::graph::numbers_in;
use crate::judgement::judge;
use crate::position::position_after;
use asn1_syntax::assignments::{Assignment, Body, IeRow, ProcedureRow, Syntax, read_syntax};
use asn1_syntax::types::{Definition, Fault, ReadError, TypeId};
use asn1_tokens::is_text;
use std::alloc::Global;
use std::marker::Model;

/// A module of types. Contracts see its name, its assignments and the types that stand in them.
#[derive(Drop)]
pub struct Module {
    syntax: Syntax,
    /// For each type the number of the assignment that its name refers to, so that no name is searched for again.
    targets: Vec<Option<usize>>,
}

impl Model for Module {
    ghost use Rattle.std.specs.Prelude.{◌≡◌};
    ghost use Rattle.asn1_syntax.specs.declared.assignments.assignment.Syntax.{Syntax};
    ghost use Rattle.asn1_defs.specs.Modules.{IsModule};
    ghost use Rattle.asn1_defs.specs.Numbers.{numbers_in};

    ghost Value = { Syntax };

    ghost view = { λ m. m.syntax };

    ghost invariant = { λ m. IsModule m.syntax × (m.targets.items ≡ numbers_in m.syntax) };
}

/// The refusal of a text for this fault.
fn refused(text: &[u8], fault: Fault) -> ModuleError
    requires { HasFault text.now fault }
    ensures { IsRefusal text.now result }
{
    let front = &text[..fault.place.min(text.len())];
    let (line, column) = position_after(front);
    ModuleError::Refused {
        line,
        column,
        reason: fault.reason,
    }
}

/// How many of these are types.
#[tactic(auto, unfolding(asn1_defs::specs::Targets::type_ids))]
fn type_count(assignments: &[Assignment]) -> usize
    ensures { result ≡ length (type_ids assignments.now) }
{
    let mut count = 0;
    for assignment in assignments {
        if let Body::Type(_) = assignment.body {
            count += 1;
        }
    }
    count
}

/// The type among these with this number.
#[tactic(auto, unfolding(asn1_defs::specs::Targets::type_ids))]
fn nth_type(assignments: &[Assignment], i: usize) -> Option<TypeId>
    ensures { result ≡ slice_get (type_ids assignments.now) i }
{
    let mut left = i;
    for assignment in assignments {
        if let Body::Type(definition) = assignment.body {
            if left == 0 {
                return Some(definition);
            }
            left -= 1;
        }
    }
    None
}

/// The assignment is that of this type.
fn is_body_of(id: TypeId, body: &Body) -> bool
    ensures { result ≡ is_body_of id body.now }
{
    match body {
        Body::Type(definition) => definition.number == id.number,
        _ => false,
    }
}

/// The type of this name among these.
#[tactic(auto, unfolding(asn1_defs::specs::Targets::find_type))]
fn find_type(assignments: &[Assignment], name: &[u8]) -> Option<TypeId>
    ensures { result ≡ find_type name.now assignments.now }
{
    for assignment in assignments {
        if is_text(assignment.name.as_slice(), name) {
            return match assignment.body {
                Body::Type(definition) => Some(definition),
                _ => None,
            };
        }
    }
    None
}

/// The rows of the set of this name among these.
#[tactic(auto, unfolding(asn1_defs::specs::Targets::ie_rows))]
fn find_ie_rows<'a>(assignments: &'a [Assignment], set: &[u8]) -> Option<&'a [IeRow]>
    ensures { option_map (λ rows. rows.now) result ≡ ie_rows set.now assignments.now }
{
    for assignment in assignments {
        if is_text(assignment.name.as_slice(), set) {
            return match &assignment.body {
                Body::IeSet(rows) => Some(rows.as_slice()),
                _ => None,
            };
        }
    }
    None
}

/// The rows of the set of this name among these.
#[tactic(auto, unfolding(asn1_defs::specs::Targets::procedure_rows))]
fn find_procedure_rows<'a>(assignments: &'a [Assignment], set: &[u8]) -> Option<&'a [ProcedureRow]>
    ensures { option_map (λ rows. rows.now) result ≡ procedure_rows set.now assignments.now }
{
    for assignment in assignments {
        if is_text(assignment.name.as_slice(), set) {
            return match &assignment.body {
                Body::ProcedureSet(rows) => Some(rows.as_slice()),
                _ => None,
            };
        }
    }
    None
}

/// What the assignment with this number gives its name.
fn body_at(assignments: &[Assignment], number: Option<usize>) -> Option<&Body>
    ensures { option_map (λ body. body.now) result ≡ body_at assignments.now number }
{
    match number {
        None => None,
        Some(number) => match assignments.get(number) {
            None => None,
            Some(assignment) => Some(&assignment.body),
        },
    }
}

/// The type that a name stands for.
fn type_of(body: Option<&Body>) -> Option<TypeId>
    ensures { result ≡ found_in type_of (option_map (λ body. body.now) body.entry) }
{
    match body {
        Some(Body::Type(definition)) => Some(*definition),
        _ => None,
    }
}

/// The rows of the set of information elements that a name stands for.
fn ie_rows_of(body: Option<&Body>) -> &[IeRow]
    ensures { result.now ≡ all_of (found_in ie_rows_of (option_map (λ body. body.now) body.entry)) }
{
    match body {
        Some(Body::IeSet(rows)) => rows.as_slice(),
        _ => &[],
    }
}

/// The rows of the set of procedures that a name stands for.
fn procedure_rows_of(body: Option<&Body>) -> &[ProcedureRow]
    ensures { result.now ≡ all_of (found_in procedure_rows_of (option_map (λ body. body.now) body.entry)) }
{
    match body {
        Some(Body::ProcedureSet(rows)) => rows.as_slice(),
        _ => &[],
    }
}

/// The module at the front of a text, with the number of its octets, or the first fault of the text.
pub fn read_module(alloc: Global, text: &[u8]) -> Result<(Module, usize), ModuleError>
    ensures { MatchResult result (λ read. Reads text.now read.1 read.0) (IsRefusal text.now) }
{
    let syntax = match read_syntax(alloc, text) {
        Ok(syntax) => syntax,
        Err(ReadError::Fault(fault)) => return Err(refused(text, fault)),
        Err(ReadError::Memory) => return Err(ModuleError::Memory),
    };
    let targets = numbers_in(alloc, &syntax)?;
    match judge(alloc, &syntax, &targets)? {
        Some(fault) => Err(refused(text, fault)),
        None => {
            let end = syntax.end;
            Ok((Module { syntax, targets }, end))
        }
    }
}

impl Module {
    /// The type of this name.
    pub fn find(&self, name: &[u8]) -> Option<TypeId>
        ensures id { result ≡ find_type name.now self.now.assignments }
        ensures inside { IfSome result (λ id. id.number < length self.now.nodes) }
    {
        find_type(self.syntax.assignments.as_slice(), name)
    }

    /// The module's name.
    pub fn name(&self) -> &[u8]
        ensures name { result.now ≡ self.now.name }
        ensures sound { IsModule self.now }
    {
        self.syntax.name.as_slice()
    }

    /// The form of a type. The types inside it have lesser numbers, and what its name refers to is there.
    pub fn definition(&self, id: TypeId) -> &Definition
        requires { id.number < length self.now.nodes }
        ensures form { option_map (λ node. node.definition) (slice_get self.now.nodes id.number) ≡ Some result.now }
        ensures at { result.now ≡ definition_at self.now id.number }
        ensures inside { IsInside id.number result.now }
        ensures target { HasTarget self.now.assignments result.now }
        ensures sound { IsModule self.now }
    {
        &self.syntax.nodes.as_slice()[id.number].definition
    }

    /// How many types have names.
    pub fn len(&self) -> u32
        ensures value { result ≡ length (type_ids self.now.assignments) }
        ensures small { result ≤ 1000 }
    {
        type_count(self.syntax.assignments.as_slice()) as u32
    }

    /// No type has a name.
    pub fn is_empty(&self) -> bool
        ensures { result ≡ (length (type_ids self.now.assignments) == 0) }
    {
        self.len() == 0
    }

    /// The type with a name that has this number in the text's order, from 0.
    pub fn at(&self, i: u32) -> TypeId
        requires { i < length (type_ids self.now.assignments) }
        ensures id { slice_get (type_ids self.now.assignments) i ≡ Some result }
        ensures inside { result.number < length self.now.nodes }
    {
        nth_type(self.syntax.assignments.as_slice(), i as usize).unwrap()
    }

    /// The name of a type, which is empty for one that has none of its own.
    #[tactic(auto, unfolding(asn1_defs::specs::Targets::type_name))]
    pub fn type_name(&self, id: TypeId) -> &[u8]
        ensures { result.now ≡ type_name id self.now.assignments }
    {
        for assignment in self.syntax.assignments.as_slice() {
            if is_body_of(id, &assignment.body) {
                return assignment.name.as_slice();
            }
        }
        &[]
    }

    /// The information elements of the set of this name.
    pub fn ie_rows(&self, set: &[u8]) -> Option<&[IeRow]>
        ensures rows { option_map (λ rows. rows.now) result ≡ ie_rows set.now self.now.assignments }
        ensures inside { IfSome result (λ rows. IesBelow (length self.now.nodes) rows.now) }
    {
        find_ie_rows(self.syntax.assignments.as_slice(), set)
    }

    /// The procedures of the set of this name.
    pub fn procedure_rows(&self, set: &[u8]) -> Option<&[ProcedureRow]>
        ensures rows { option_map (λ rows. rows.now) result ≡ procedure_rows set.now self.now.assignments }
        ensures inside { IfSome result (λ rows. ProceduresBelow (length self.now.nodes) rows.now) }
    {
        find_procedure_rows(self.syntax.assignments.as_slice(), set)
    }

    /// What the name in a type stands for.
    fn body_of(&self, id: TypeId) -> Option<&Body>
        requires { id.number < length self.now.nodes }
        ensures { option_map (λ body. body.now) result ≡ body_at self.now.assignments (number_in self.now.assignments (definition_at self.now id.number)) }
    {
        let number = self.targets.as_slice()[id.number];
        body_at(self.syntax.assignments.as_slice(), number)
    }

    /// The type that a name refers to; none for a type of another form.
    pub fn referred(&self, id: TypeId) -> Option<TypeId>
        requires { id.number < length self.now.nodes }
        ensures target { result ≡ referred self.now.assignments (definition_at self.now id.number) }
        ensures inside { IfSome result (λ target. target.number < length self.now.nodes) }
        ensures sound { IsModule self.now }
    {
        match self.definition(id) {
            Definition::Reference(_) => type_of(self.body_of(id)),
            _ => None,
        }
    }

    /// The rows of the set that a container is of; none for a type of another form.
    pub fn element_rows(&self, id: TypeId) -> &[IeRow]
        requires { id.number < length self.now.nodes }
        ensures rows { result.now ≡ element_rows self.now.assignments (definition_at self.now id.number) }
        ensures inside { IesBelow (length self.now.nodes) result.now }
    {
        match self.definition(id) {
            Definition::IeContainer(_) => ie_rows_of(self.body_of(id)),
            _ => &[],
        }
    }

    /// The rows of the set that a PDU is of; none for a type of another form.
    pub fn message_rows(&self, id: TypeId) -> &[ProcedureRow]
        requires { id.number < length self.now.nodes }
        ensures rows { result.now ≡ message_rows self.now.assignments (definition_at self.now id.number) }
        ensures inside { ProceduresBelow (length self.now.nodes) result.now }
    {
        match self.definition(id) {
            Definition::Pdu(_) => procedure_rows_of(self.body_of(id)),
            _ => &[],
        }
    }
}
