//! Laws of the links of any run. Each function does nothing: its contract is the law.

ghost use Rattle.std.specs.Prelude.{List};
ghost use Rattle.scenario_text.specs.declared.event.Event.{Event};
ghost use Rattle.run_defs.specs.Runs.{Reading, Run};
ghost use Rattle.unit_defs.specs.octet_defs.Codec.{Codec};
ghost use Rattle.run_defs.specs.UnitRuns.{Meaning, UnitRun};
ghost use Rattle.run_defs.specs.Said.{all_lines, Wires};

/// In every run each item that is got from a tunnel or radio is the oldest that was put on it and neither taken nor lost, and
/// the control message of a number is the one that was put with this number: its ends, its terminal and what stands for it.
pub fn links_keep_order()
    ensures run { (reading : Reading) (events : List Event) → Wires (all_lines (Run reading events).events) }
    ensures units { (codec : Codec) (answer : Meaning) (events : List Event)
        → Wires (all_lines (UnitRun codec answer events).events) }
{}
