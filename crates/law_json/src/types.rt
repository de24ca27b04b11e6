//! Laws of a module's types with the names that JSON shows. Each function does nothing: its contract is the law.

ghost use Rattle.std.specs.Prelude.{◌≡◌, ◌↔◌, ◌⊎◌, ◌<◌, ℕ, length, [], Some, None};
ghost use Rattle.serde_json.specs.Data.{Data};
ghost use Rattle.asn1_syntax.specs.declared.assignments.assignment.Syntax.{Syntax};
ghost use Rattle.asn1_defs.specs.Modules.{IsModule};
ghost use Rattle.asn1_defs.specs.Targets.{definition_at};
ghost use Rattle.aper_values.specs.types.Types.{tree};
ghost use Rattle.aper_defs.specs.Fields.{Path};
ghost use Rattle.aper_defs.specs.Values.{Value};
ghost use Rattle.aper_defs.specs.Membership.{Has};
ghost use Rattle.json_defs.specs.declared.fault.JsonFault.{JsonFault};
ghost use Rattle.json_defs.specs.Named.{tree_of};
ghost use Rattle.json_defs.specs.Bounds.{IsBounded};
ghost use Rattle.json_defs.specs.Json.{Json};
ghost use Rattle.json_defs.specs.Readings.{value_of};
ghost use Rattle.json_defs.specs.Demands.{demands, first_fault};
ghost use Rattle.json_defs.specs.type_defs.Types.{definition_with, named};

/// A type without its names is the tree that an encoding depends on: JSON of it is of values that the codec takes.
pub fn names_are_all_that_json_adds()
    ensures tree { (m : Syntax) (id : ℕ) → tree_of (named m id) ≡ tree m id }
    ensures values { (m : Syntax) (id : ℕ) (d : Data) (v : Value)
        → Json (named m id) d v → Has [] (tree m id) v }
{}

/// The types of a module are within the bounds on which JSON depends.
pub fn types_of_a_module_are_bounded()
    ensures { (m : Syntax) (id : ℕ) → IsModule m → IsBounded (named m id) }
{}

/// A type of a module is what its definition says, over the types of the module that stand in it.
pub fn a_type_is_what_its_definition_says()
    ensures { (m : Syntax) (id : ℕ) → IsModule m → id < length m.nodes
        → named m id ≡ definition_with m.assignments (named m) (definition_at m id) }
{}

/// Of each type of a module: JSON is a value of it exactly where no demand of the type fails, and then it is the value that is read; so
/// it is a value or has a fault, the first demand that fails.
pub fn json_of_a_module_is_a_value_or_has_a_fault()
    ensures exact { (m : Syntax) (id : ℕ) (d : Data) (v : Value) → IsModule m
        → Json (named m id) d v
        ↔ ((first_fault (demands [] (named m id) d) ≡ None) × (v ≡ value_of (named m id) d)) }
    ensures always { (m : Syntax) (id : ℕ) (d : Data) → IsModule m
        → Json (named m id) d (value_of (named m id) d)
        ⊎ ((fault : JsonFault × Path) × (first_fault (demands [] (named m id) d) ≡ Some fault)) }
{}
