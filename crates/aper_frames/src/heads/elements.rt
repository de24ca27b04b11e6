//! Heads of information elements.

ghost use Rattle.std.specs.Prelude.{◌≡◌, ◌≤◌, ◌<◌, IfOk};
ghost use Rattle.aper_defs.specs.Fields.{ie_count};
ghost use Rattle.aper_defs.specs.Trees.{mandatory_count, slots_left};
ghost use Rattle.aper_defs.specs.Questions.{ask_aligned};
ghost use Rattle.aper_cursor.specs.Questions.{slots_of};
ghost use Rattle.aper_cursor.specs.asking.Going.{GoesOn};
ghost use Rattle.aper_frames.specs.heads.Heads.{ask_element_head};

use crate::heads::messages::ask_third;
use aper_cursor::asking::ask_aligned;
use aper_cursor::{Cursor, Question, find_row, mandatory_count};
use aper_defs::Reason;
use asn1_syntax::assignments::IeRow;

/// What stands before the body of an information element. Criticality is 0 reject, 1 ignore, 2 notify.
#[derive(Clone, Copy, PartialEq, Eq)]
pub struct ElementHead {
    pub id: u16,
    pub criticality: u8,
}

/// How many information elements of a set come.
pub fn ask_element_count(cursor: &mut Cursor, rows: &[IeRow]) -> Result<u64, Reason>
    ensures asked { GoesOn (λ p. ask_aligned p (ie_count (mandatory_count (slots_of rows.now)))) cursor.old cursor.new result }
    ensures most { IfOk result (λ n. n < 65536) }
{
    let least = mandatory_count(rows);
    Ok(ask_aligned(cursor, Question::IeCount(least))?)
}

/// What stands before the body of an information element of a set, of which these rows may still come, and after which so many
/// elements come.
pub fn ask_element_head(
    cursor: &mut Cursor,
    known: &[IeRow],
    left: &[IeRow],
    after: u64,
) -> Result<ElementHead, Reason>
    ensures asked { GoesOn (λ p. ask_element_head p (slots_of known.now) (slots_of left.now) after) cursor.old cursor.new result }
    ensures criticality { IfOk result (λ head. head.criticality ≤ 2) }
{
    let id = ask_aligned(cursor, Question::IeId { known, left, after })?;
    let criticality = ask_third(cursor)?;
    Ok(ElementHead {
        id: id as u16,
        criticality: criticality as u8,
    })
}

/// The rows that may still come after an element with this id.
pub fn rows_left<'m>(known: &[IeRow], left: &'m [IeRow], id: u16) -> &'m [IeRow]
    ensures { slots_of result.now ≡ slots_left (slots_of known.now) id (slots_of left.now) }
{
    if find_row(known, u64::from(id)).is_none() {
        return left;
    }
    match find_row(left, u64::from(id)) {
        None => &[],
        Some(i) => &left[i + 1..],
    }
}
