//! The order of information elements.

ghost use Rattle.std.specs.Prelude.{◌≡◌, ℕ, List, nat_lt, option_map};
ghost use Rattle.aper_defs.specs.Trees.{Tree, Slot, slots, has_slot, mandatory_count};
ghost use Rattle.aper_values.specs.types.Types.{rows_of, is_mandatory};
ghost use Rattle.aper.specs.measuring.Order.{LeavesRows, LeavesKnown};

use asn1_syntax::assignments::{IeRow, Presence};

/// The rows that may still come after an element with this id, where these may still come. None where the element itself may not come:
/// one that a row of its set has comes among these, and passes over no mandatory one; any other one comes anywhere.
pub fn rows_left<'m>(is_known: bool, left: &'m [IeRow], id: u16) -> Option<&'m [IeRow]>
    ensures { (of : ℕ → Tree) (known : List Slot) → has_slot id known ≡ is_known
        → LeavesRows known id (slots (rows_of of left.now))
        (option_map (λ rows. slots (rows_of of rows.now)) result) }
{
    if !is_known {
        return Some(left);
    }
    rows_after(left, id)
}

/// The rows after the one with this id; none where there is none, or where a mandatory one comes before it.
fn rows_after(left: &[IeRow], id: u16) -> Option<&[IeRow]>
    ensures { (of : ℕ → Tree)
        → LeavesKnown id (slots (rows_of of left.now)) (option_map (λ rows. slots (rows_of of rows.now)) result) }
{
    for (i, row) in left.iter().enumerate() {
        if row.id == id {
            return Some(&left[i + 1..]);
        }
        if is_mandatory(row) {
            return None;
        }
    }
    None
}

/// Whether one of these has to come.
pub fn has_mandatory(rows: &[IeRow]) -> bool
    ensures { (of : ℕ → Tree) → result ≡ nat_lt 0 (mandatory_count (slots (rows_of of rows.now))) }
{
    for row in rows {
        if is_mandatory(row) {
            return true;
        }
    }
    false
}

fn is_mandatory(row: &IeRow) -> bool
    ensures { result ≡ is_mandatory row.now.presence }
{
    matches!(row.presence, Presence::Mandatory)
}
