//! Laws of JSON of a module's types: their names can be told apart, and they nest so little that what is printed of a value is read
//! again as that value. Each function does nothing: its contract is the law.

ghost use Rattle.std.specs.Prelude.{◌≡◌, ◌≤◌, ℕ, [], None};
ghost use Rattle.serde_json.specs.Data.{depth};
ghost use Rattle.serde_json.specs.Read.{max_depth};
ghost use Rattle.asn1_syntax.specs.declared.assignments.assignment.Syntax.{Syntax};
ghost use Rattle.asn1_defs.specs.Modules.{IsModule};
ghost use Rattle.aper_defs.specs.Values.{Value};
ghost use Rattle.aper_defs.specs.Membership.{Has};
ghost use Rattle.aper_values.specs.types.Types.{tree};
ghost use Rattle.json_defs.specs.Json.{Json};
ghost use Rattle.json_defs.specs.Readings.{value_of};
ghost use Rattle.json_defs.specs.Demands.{demands, first_fault};
ghost use Rattle.json_defs.specs.shown_defs.Names.{IsApart};
ghost use Rattle.json_defs.specs.shown_defs.Levels.{levels};
ghost use Rattle.json_defs.specs.shown_defs.Printed.{shown_as};
ghost use Rattle.json_defs.specs.type_defs.Types.{named};

/// The names of an ENUMERATED of a module differ; so do the keys of the object of a SEQUENCE or CHOICE, and none of them is `...`.
pub fn names_of_a_module_can_be_told_apart()
    ensures { (m : Syntax) (id : ℕ) → IsModule m → IsApart (named m id) }
{}

/// Types of a module nest at most sixty levels, so that what is printed of a value nests no deeper than JSON that is read.
pub fn types_of_a_module_nest_sixty_levels()
    ensures levels { (m : Syntax) (id : ℕ) → IsModule m → levels (named m id) ≤ 60 }
    ensures depth { (m : Syntax) (id : ℕ) (v : Value) → IsModule m
        → depth (shown_as (named m id) v) ≤ 121 }
    ensures read { (m : Syntax) (id : ℕ) (v : Value) → IsModule m
        → depth (shown_as (named m id) v) ≤ max_depth }
{}

/// What is printed of a value of a module's type is JSON of that value, and read again it has no fault and is that value.
pub fn a_printed_value_is_read_again()
    ensures is { (m : Syntax) (id : ℕ) (v : Value) → IsModule m → Has [] (tree m id) v
        → Json (named m id) (shown_as (named m id) v) v }
    ensures again { (m : Syntax) (id : ℕ) (v : Value) → IsModule m → Has [] (tree m id) v
        → (first_fault (demands [] (named m id) (shown_as (named m id) v)) ≡ None)
        × (value_of (named m id) (shown_as (named m id) v) ≡ v) }
{}
