//! Laws: JSON of a value is one tree, but for the case of digits. Each function does nothing: its contract is the law.

ghost use Rattle.serde_json.specs.Data.{Data};
ghost use Rattle.aper_defs.specs.Values.{Value};
ghost use Rattle.json_defs.specs.Named.{Named};
ghost use Rattle.json_defs.specs.Json.{Json};
ghost use Rattle.json_defs.specs.shown_defs.Names.{IsApart};
ghost use Rattle.json_defs.specs.shown_defs.Order.{IsOrdered};
ghost use Rattle.json_defs.specs.shown_defs.Alike.{Alike};
ghost use Rattle.json_defs.specs.shown_defs.Printed.{shown_as};

/// Each tree of JSON of a value whose members are in order is the printed one, but for the case of digits.
pub fn json_of_a_value_is_one_tree()
    ensures { (t : Named) (d : Data) (v : Value) → IsApart t → Json t d v → IsOrdered d
        → Alike d (shown_as t v) }
{}
