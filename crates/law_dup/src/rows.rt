//! Worked scripts of a bearer with duplication as a theorem: the runs that the definitions give have the lines that were worked out.

ghost use Rattle.std.specs.Prelude.{map, ◌≡◌};
ghost use Rattle.law_dup.specs.rows.Rows.{all, outcome, expected};

/// The run of each worked script shows the lines that were worked out for it, and goes on.
pub fn worked_scripts()
    ensures { map outcome all ≡ map expected all }
{}
