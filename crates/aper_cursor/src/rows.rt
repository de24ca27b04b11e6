//! The information elements of a set, as the order of those that are read sees them.

ghost use Rattle.std.specs.Prelude.{◌≡◌, ◌≤◌, ◌<◌, ◌^◌, length};
ghost use Rattle.aper_defs.specs.Trees.{mandatory_count};
ghost use Rattle.aper_defs.specs.Fields.{ie_id};
ghost use Rattle.aper_defs.specs.Reading.{judged, Cursor};
ghost use Rattle.aper_cursor.specs.Questions.{slots_of};
ghost use Rattle.aper_cursor.specs.Rows.{IsFound};

use crate::lengths::unless;
use aper_defs::Reason;
use asn1_syntax::assignments::{IeRow, Presence};

/// What is wrong with the id of an information element of a set, of which some may still come, and after which so many elements
/// come.
pub fn judged_id(known: &[IeRow], left: &[IeRow], after: u64, id: u64) -> Option<Reason>
    ensures { (c : Cursor) → result ≡ judged (ie_id (slots_of known.now) (slots_of left.now) after) c id }
{
    if find_row(known, id).is_none() {
        return unless(mandatory_count(left) <= after, Reason::Required);
    }
    match find_row(left, id) {
        None => Some(Reason::Order),
        Some(i) => unless(
            mandatory_count(&left[..i]) == 0 && mandatory_count(&left[i + 1..]) <= after,
            Reason::Required,
        ),
    }
}

/// The number of the row with an id.
pub fn find_row(rows: &[IeRow], id: u64) -> Option<usize>
    ensures { IsFound id rows.now result }
{
    for (i, row) in rows.iter().enumerate() {
        if u64::from(row.id) == id {
            return Some(i);
        }
    }
    None
}

/// How many of these are mandatory.
pub fn mandatory_count(rows: &[IeRow]) -> u64
    ensures { result ≡ mandatory_count (slots_of rows.now) }
{
    let mut count = 0;
    for row in rows {
        if matches!(row.presence, Presence::Mandatory) {
            count += 1;
        }
    }
    count
}
