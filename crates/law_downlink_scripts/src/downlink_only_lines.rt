//! Laws of the COUNTs that a transcript shows. Each function does nothing: its contract is the law.

ghost use Rattle.law_downlink_scripts.specs.downlink_only_lines.Example.{out_of_place};
ghost use Rattle.law_downlink_scripts.specs.downlink_only_runs.Scripts.{IsDownlinkOnly};
ghost use Rattle.run_defs.specs.Local.{CountMeans};
ghost use Rattle.run_defs.specs.Runs.{Reading, Run};
ghost use Rattle.scenario_text.specs.declared.event.Event.{Event};
ghost use Rattle.std.specs.List.{AllByRecursion};
ghost use Rattle.std.specs.Prelude.{List};

/// In every run of terminals that are set up without messages, of packets that are offered down, of items that are got, carried and
/// confirmed, and of questions: where a line puts or gets an item and shows a COUNT, each packet that the item's octets carry is the
/// one at this place, counted from 0, among those offered so far at its terminal and bearer; so is each packet that is delivered.
pub fn shown_counts_are_places()
    ensures { (reading : Reading) (events : List Event) → AllByRecursion IsDownlinkOnly events → CountMeans (Run reading events).events }
{}

/// Where another packet was offered, none may be put with COUNT 0.
pub fn the_law_says_something()
    ensures { CountMeans out_of_place → ⊥ }
{}
