//! Worked JSON as theorems: which JSON is which value, and the first fault of other JSON. No code stands on it.

ghost use Rattle.std.specs.Prelude.{map, ◌≡◌};
ghost use Rattle.law_json.specs.rows.Row.{read_value, told_value, found_fault, told_fault, AreShown};
ghost use Rattle.law_json.specs.rows.Shown.{shown};
ghost use Rattle.law_json.specs.rows.Faults.{faults};

/// Each of these shows its value, as is read of it, and no demand of its type fails.
pub fn worked_values()
    ensures shows { AreShown shown }
    ensures reads { map read_value shown ≡ map told_value shown }
{}

/// The first demand that fails of each of these is the one that was worked out.
pub fn worked_faults()
    ensures { map found_fault faults ≡ map told_fault faults }
{}
