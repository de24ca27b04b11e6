//! Information object sets.

ghost use Rattle.std.specs.Prelude.{◌≡◌, []};
ghost use Rattle.asn1_syntax.specs.types.inside.Reading.{Gives};
ghost use Rattle.asn1_syntax.specs.assignments.inside.Sets.{set_goes_on_at, rows_with, ie_turn_at, procedure_turn_at, set_start_at, ie_set_at, procedure_set_at};

use crate::assignments::assignment::{IeRow, ProcedureRow};
use crate::assignments::ie_rows::IeRows;
use crate::assignments::rows::{ie_row, procedure_row};
use crate::types::{Items, Node, ReadError, Reader};
use asn1_tokens::Sign;
use std::alloc::Global;

/// Takes what follows a row, and answers whether another one does.
#[tactic(auto, unfolding(crate::specs::assignments::inside::Sets::set_goes_on_at))]
fn set_goes_on(reader: &mut Reader) -> Result<bool, ReadError>
    ensures { Gives (λ more. (more, reader.new)) result (set_goes_on_at reader.old) }
{
    if reader.begins_with_sign(Sign::Bar) {
        reader.sign(Sign::Bar)?;
        return Ok(true);
    }
    reader.sign(Sign::Comma)?;
    reader.sign(Sign::Ellipsis)?;
    reader.sign(Sign::RightBrace)?;
    Ok(false)
}

#[tactic(auto, unfolding(crate::specs::assignments::inside::Sets::set_start_at))]
fn set_start(reader: &mut Reader) -> Result<(), ReadError>
    ensures { Gives (λ _. reader.new) result (set_start_at reader.old) }
{
    reader.sign(Sign::Assignment)?;
    reader.sign(Sign::LeftBrace)
}

/// Takes a row, and answers whether another one follows.
#[tactic(auto, unfolding(crate::specs::assignments::inside::Sets::ie_turn_at))]
fn ie_turn(
    reader: &mut Reader,
    alloc: Global,
    turns: u64,
    rows: &mut IeRows,
    nodes: &mut Items<Node>,
) -> Result<bool, ReadError>
    ensures { Gives (λ more. (more, rows_with rows.new nodes.new, reader.new)) result (ie_turn_at turns (rows_with rows.old nodes.old) reader.old) }
{
    let row = ie_row(reader, turns, rows, nodes)?;
    let more = set_goes_on(reader)?;
    rows.push(alloc, row)?;
    Ok(more)
}

#[tactic(auto, unfolding(crate::specs::assignments::inside::Sets::procedure_turn_at))]
fn procedure_turn(
    reader: &mut Reader,
    turns: u64,
    rows: &mut Items<ProcedureRow>,
    nodes: &mut Items<Node>,
) -> Result<bool, ReadError>
    ensures { Gives (λ more. (more, rows_with rows.new nodes.new, reader.new)) result (procedure_turn_at turns (rows_with rows.old nodes.old) reader.old) }
{
    let row = procedure_row(reader, turns, rows.as_slice(), nodes)?;
    let more = set_goes_on(reader)?;
    rows.push(row)?;
    Ok(more)
}

/// Takes what follows the word of a set of information elements, in at most so many turns.
#[tactic(auto, using(crate::proofs::types::Loops::repeat_turn, crate::proofs::types::Loops::repeat_end), unfolding(crate::specs::assignments::inside::Sets::ie_set_at))]
pub fn ie_set(
    reader: &mut Reader,
    alloc: Global,
    turns: u64,
    nodes: &mut Items<Node>,
) -> Result<Items<IeRow>, ReadError>
    ensures { Gives (λ rows. (rows_with rows nodes.new, reader.new)) result (ie_set_at turns nodes.old reader.old) }
{
    set_start(reader)?;
    let mut rows = IeRows::new(alloc);
    for _ in 0..turns {
        if !ie_turn(reader, alloc, turns, &mut rows, nodes)? {
            return Ok(rows.into_items());
        }
    }
    Err(reader.unexpected())
}

/// Takes what follows the word of a set of procedures, in at most so many turns.
#[tactic(auto, using(crate::proofs::types::Loops::repeat_turn, crate::proofs::types::Loops::repeat_end), unfolding(crate::specs::assignments::inside::Sets::procedure_set_at))]
pub fn procedure_set(
    reader: &mut Reader,
    alloc: Global,
    turns: u64,
    nodes: &mut Items<Node>,
) -> Result<Items<ProcedureRow>, ReadError>
    ensures { Gives (λ rows. (rows_with rows nodes.new, reader.new)) result (procedure_set_at turns nodes.old reader.old) }
{
    set_start(reader)?;
    let mut rows = Items::new(alloc);
    for _ in 0..turns {
        if !procedure_turn(reader, turns, &mut rows, nodes)? {
            return Ok(rows);
        }
    }
    Err(reader.unexpected())
}
