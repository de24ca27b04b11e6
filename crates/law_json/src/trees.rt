//! Laws of the trees of JSON that values are printed as. Each function does nothing: its contract is the law.

ghost use Rattle.std.specs.Prelude.{◌≡◌, ℕ, ◌+◌, ◌*◌, ◌≤◌, false};
ghost use Rattle.serde_json.specs.Data.{depth};
ghost use Rattle.serde_json.specs.Read.{max_depth};
ghost use Rattle.serde_json.specs.Written.{has_float};
ghost use Rattle.aper_defs.specs.Values.{Value};
ghost use Rattle.json_defs.specs.Named.{Named};
ghost use Rattle.json_defs.specs.shown_defs.Levels.{levels};
ghost use Rattle.json_defs.specs.shown_defs.Order.{IsOrdered};
ghost use Rattle.json_defs.specs.shown_defs.Printed.{shown_as};

/// A printed tree nests at most two deep for each level of its type, and one more; so that of a type of at most 63 levels is no
/// deeper than JSON that is read.
pub fn printed_trees_are_shallow()
    ensures depth { (t : Named) (v : Value) → depth (shown_as t v) ≤ 2 * levels t + 1 }
    ensures read { (t : Named) (v : Value) → levels t ≤ 63 → depth (shown_as t v) ≤ max_depth }
{}

/// The members of each object in a printed tree stand in the order of their keys, each key once.
pub fn printed_members_are_in_order()
    ensures { (t : Named) (v : Value) → IsOrdered (shown_as t v) }
{}

/// No number in a printed tree is a float, so its text is the compact text of the tree.
pub fn printed_trees_have_no_float()
    ensures { (t : Named) (v : Value) → has_float (shown_as t v) ≡ false }
{}
