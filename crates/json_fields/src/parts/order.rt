//! The order of information elements.

ghost use Rattle.std.specs.Prelude.{◌≡◌, ℕ};
ghost use Rattle.aper_defs.specs.Trees.{Tree, slots};
ghost use Rattle.aper_values.specs.types.Types.{rows_of};
ghost use Rattle.json_fields.specs.parts.Order.{are_ids_in_order, ids_of};

use aper::measuring::order::{has_mandatory, rows_left};
use aper_fields::members::rows::row_type;
use aper_values::value::Ie;
use asn1_syntax::assignments::IeRow;

/// Whether information elements come in the order of their set, the mandatory ones all.
pub fn are_in_order(rows: &[IeRow], ies: &[Ie]) -> bool
    ensures { (of : ℕ → Tree) → result
        ≡ are_ids_in_order (slots (rows_of of rows.now)) (slots (rows_of of rows.now)) (ids_of ies.now) }
{
    let mut left = rows;
    for ie in ies {
        let is_known = row_type(ie.id, rows).is_some();
        let Some(after) = rows_left(is_known, left, ie.id) else {
            return false;
        };
        left = after;
    }
    !has_mandatory(left)
}
