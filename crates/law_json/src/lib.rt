//! Laws of values as JSON. Each function does nothing: its contract is the law.
#![tactic(auto)]

pub mod modules;
pub mod one;
pub mod rows;
pub mod shown;
pub mod trees;
pub mod types;

ghost use Rattle.std.specs.Prelude.{◌≡◌, ◌↔◌, ◌⊎◌, [], Some, None};
ghost use Rattle.serde_json.specs.Data.{Data};
ghost use Rattle.aper_defs.specs.Fields.{Path};
ghost use Rattle.aper_defs.specs.Values.{Value};
ghost use Rattle.json_defs.specs.declared.fault.JsonFault.{JsonFault};
ghost use Rattle.json_defs.specs.Named.{Named};
ghost use Rattle.json_defs.specs.Bounds.{IsBounded};
ghost use Rattle.json_defs.specs.Json.{Json};
ghost use Rattle.json_defs.specs.Readings.{value_of};
ghost use Rattle.json_defs.specs.Demands.{demands, first_fault};

/// JSON is a value of a type exactly where no demand of the type fails, and then it is the value that is read.
pub fn json_is_a_value_where_no_demand_fails()
    ensures { (t : Named) (d : Data) (v : Value) → IsBounded t
        → Json t d v ↔ ((first_fault (demands [] t d) ≡ None) × (v ≡ value_of t d)) }
{}

/// JSON is a value of a type, or has a fault, the first demand that fails: always one of the two, and never both.
pub fn json_is_a_value_or_has_a_fault()
    ensures always { (t : Named) (d : Data) → IsBounded t
        → Json t d (value_of t d)
        ⊎ ((fault : JsonFault × Path) × (first_fault (demands [] t d) ≡ Some fault)) }
    ensures never { (t : Named) (d : Data) (v : Value) (fault : JsonFault × Path) → IsBounded t
        → Json t d v → first_fault (demands [] t d) ≡ Some fault → ⊥ }
{}
