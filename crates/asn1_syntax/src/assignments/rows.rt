//! Rows of information object sets.

ghost use Rattle.std.specs.Prelude.{◌≡◌, ◌==◌, ◌≤◌, ◌<◌, ◌^◌, IfOk, Some, None};
ghost use Rattle.std.specs.List.{list_any};
ghost use Rattle.asn1_syntax.specs.types.inside.Reading.{Gives};
ghost use Rattle.asn1_syntax.specs.assignments.Rows.{criticality_of, presence_of};
ghost use Rattle.asn1_syntax.specs.assignments.inside.Rows.{new_number_at, criticality_at, presence_at, has_id, has_code, ie_row_at, outcome_at, messages_at, procedure_row_at};

use crate::assignments::assignment::{Criticality, IeRow, Presence, ProcedureRow};
use crate::assignments::ie_rows::IeRows;
use crate::types::{Items, ModuleReason, Node, ReadError, Reader, TypeId};
use asn1_tokens::{Sign, Word, is_text};

const ID_GREATEST: u32 = 65535;

const CODE_GREATEST: u32 = 255;

fn has_code(code: u32, rows: &[ProcedureRow]) -> bool
    ensures { result ≡ has_code code rows.now }
{
    rows.iter().any(|row| u32::from(row.code) == code)
}

/// The criticality of this name.
#[tactic(auto, unfolding(crate::specs::assignments::Rows::criticality_of))]
fn criticality_of(name: &[u8]) -> Option<Criticality>
    ensures { result ≡ criticality_of name.now }
{
    if is_text(name, b"reject") {
        return Some(Criticality::Reject);
    }
    if is_text(name, b"ignore") {
        return Some(Criticality::Ignore);
    }
    if is_text(name, b"notify") {
        return Some(Criticality::Notify);
    }
    None
}

/// Takes a criticality.
#[tactic(auto, unfolding(crate::specs::assignments::inside::Rows::criticality_at))]
fn criticality(reader: &mut Reader) -> Result<Criticality, ReadError>
    ensures { Gives (λ found. (found, reader.new)) result (criticality_at reader.old) }
{
    let unexpected = reader.unexpected();
    let name = reader.lower()?;
    match criticality_of(name.as_slice()) {
        None => Err(unexpected),
        Some(found) => Ok(found),
    }
}

/// The presence of this name.
#[tactic(auto, unfolding(crate::specs::assignments::Rows::presence_of))]
fn presence_of(name: &[u8]) -> Option<Presence>
    ensures { result ≡ presence_of name.now }
{
    if is_text(name, b"mandatory") {
        return Some(Presence::Mandatory);
    }
    if is_text(name, b"optional") {
        return Some(Presence::Optional);
    }
    None
}

/// Takes a presence.
#[tactic(auto, unfolding(crate::specs::assignments::inside::Rows::presence_at))]
fn presence(reader: &mut Reader) -> Result<Presence, ReadError>
    ensures { Gives (λ found. (found, reader.new)) result (presence_at reader.old) }
{
    let unexpected = reader.unexpected();
    let name = reader.lower()?;
    match presence_of(name.as_slice()) {
        None => Err(unexpected),
        Some(found) => Ok(found),
    }
}

/// Takes an id that none of these rows has.
#[tactic(auto, unfolding(crate::specs::assignments::inside::Rows::new_number_at))]
fn new_id(reader: &mut Reader, rows: &IeRows) -> Result<u16, ReadError>
    ensures { Gives (λ id. (id, reader.new)) result (new_number_at (λ id. has_id id rows.now) 65535 reader.old) }
{
    let twice = reader.fault(ModuleReason::Twice);
    let id = reader.natural(0, ID_GREATEST)?;
    if rows.has_id(id) {
        return Err(ReadError::Fault(twice));
    }
    Ok(id as u16)
}

/// Takes a code that none of these rows has.
#[tactic(auto, unfolding(crate::specs::assignments::inside::Rows::new_number_at))]
fn new_code(reader: &mut Reader, rows: &[ProcedureRow]) -> Result<u8, ReadError>
    ensures { Gives (λ code. (code, reader.new)) result (new_number_at (λ code. has_code code rows.now) 255 reader.old) }
{
    let twice = reader.fault(ModuleReason::Twice);
    let code = reader.natural(0, CODE_GREATEST)?;
    if has_code(code, rows) {
        return Err(ReadError::Fault(twice));
    }
    Ok(code as u8)
}

/// Takes a row of a set of information elements.
#[tactic(auto, unfolding(crate::specs::assignments::inside::Rows::ie_row_at))]
pub fn ie_row(
    reader: &mut Reader,
    turns: u64,
    rows: &IeRows,
    nodes: &mut Items<Node>,
) -> Result<IeRow, ReadError>
    ensures { Gives (λ row. (row, nodes.new, reader.new)) result (ie_row_at turns rows.now nodes.old reader.old) }
{
    reader.sign(Sign::LeftBrace)?;
    reader.word(Word::Id)?;
    let id = new_id(reader, rows)?;
    reader.word(Word::Criticality)?;
    let criticality = criticality(reader)?;
    reader.word(Word::Type)?;
    let definition = reader.definition(turns, nodes)?;
    reader.word(Word::Presence)?;
    let presence = presence(reader)?;
    reader.sign(Sign::RightBrace)?;
    Ok(IeRow {
        id,
        criticality,
        definition,
        presence,
    })
}

/// Takes an outcome of a procedure, where its word stands.
#[tactic(auto, unfolding(crate::specs::assignments::inside::Rows::outcome_at))]
fn outcome(
    reader: &mut Reader,
    turns: u64,
    word: Word,
    nodes: &mut Items<Node>,
) -> Result<Option<TypeId>, ReadError>
    ensures { Gives (λ outcome. (outcome, nodes.new, reader.new)) result (outcome_at turns word nodes.old reader.old) }
{
    if !reader.begins_with(word) {
        return Ok(None);
    }
    reader.word(word)?;
    reader.word(Word::Outcome)?;
    Ok(Some(reader.definition(turns, nodes)?))
}

/// The types of a procedure's messages.
#[derive(Clone, Copy)]
struct MessageTypes {
    initiating: TypeId,
    successful: Option<TypeId>,
    unsuccessful: Option<TypeId>,
}

#[tactic(auto, unfolding(crate::specs::assignments::inside::Rows::messages_at))]
fn messages(
    reader: &mut Reader,
    turns: u64,
    nodes: &mut Items<Node>,
) -> Result<MessageTypes, ReadError>
    ensures { Gives (λ x. (x.initiating, x.successful, x.unsuccessful, nodes.new, reader.new)) result (messages_at turns nodes.old reader.old) }
{
    reader.word(Word::Initiating)?;
    reader.word(Word::Message)?;
    let initiating = reader.definition(turns, nodes)?;
    let successful = outcome(reader, turns, Word::Successful, nodes)?;
    let unsuccessful = outcome(reader, turns, Word::Unsuccessful, nodes)?;
    Ok(MessageTypes {
        initiating,
        successful,
        unsuccessful,
    })
}

/// Takes a row of a set of procedures.
#[tactic(auto, unfolding(crate::specs::assignments::inside::Rows::procedure_row_at))]
pub fn procedure_row(
    reader: &mut Reader,
    turns: u64,
    rows: &[ProcedureRow],
    nodes: &mut Items<Node>,
) -> Result<ProcedureRow, ReadError>
    ensures { Gives (λ row. (row, nodes.new, reader.new)) result (procedure_row_at turns rows.now nodes.old reader.old) }
{
    reader.sign(Sign::LeftBrace)?;
    let messages = messages(reader, turns, nodes)?;
    reader.word(Word::Procedure)?;
    reader.word(Word::Code)?;
    let code = new_code(reader, rows)?;
    reader.word(Word::Criticality)?;
    let criticality = criticality(reader)?;
    reader.sign(Sign::RightBrace)?;
    Ok(ProcedureRow {
        initiating: messages.initiating,
        successful: messages.successful,
        unsuccessful: messages.unsuccessful,
        code,
        criticality,
    })
}
