//! Laws of the JSON that values are printed as. Each function does nothing: its contract is the law.

ghost use Rattle.std.specs.Prelude.{◌≡◌, [], None, map};
ghost use Rattle.aper_defs.specs.Values.{Value};
ghost use Rattle.aper_defs.specs.Membership.{Has};
ghost use Rattle.json_defs.specs.Named.{Named, tree_of};
ghost use Rattle.json_defs.specs.Bounds.{IsBounded};
ghost use Rattle.json_defs.specs.Json.{Json};
ghost use Rattle.json_defs.specs.Readings.{value_of};
ghost use Rattle.json_defs.specs.Demands.{demands, first_fault};
ghost use Rattle.law_json.specs.rows.Shown.{shown};
ghost use Rattle.json_defs.specs.shown_defs.Names.{IsApart};
ghost use Rattle.json_defs.specs.shown_defs.Printed.{shown_as};
ghost use Rattle.law_json.specs.shown.Rows.{printed, texts};

/// What a value of a type is printed as is JSON of that value, where names can be told apart.
pub fn what_is_printed_is_json_of_the_value()
    ensures { (t : Named) (v : Value) → IsApart t → Has [] (tree_of t) v
        → Json t (shown_as t v) v }
{}

/// So it is read again as the value, and no demand of the type fails.
pub fn what_is_printed_is_read_again()
    ensures { (t : Named) (v : Value) → IsApart t → IsBounded t → Has [] (tree_of t) v
        → (first_fault (demands [] t (shown_as t v)) ≡ None) × (value_of t (shown_as t v) ≡ v) }
{}

/// The texts of these values are those that were worked out.
pub fn worked_values_are_printed()
    ensures { map printed shown ≡ texts }
{}
