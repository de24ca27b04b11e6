//! Laws of what a run's lines tell of items that are put. Each function does nothing: its contract is the law.

ghost use Rattle.law_tunnels_are_owned.specs.laid_out.Laid.{AreLaid};
ghost use Rattle.run_defs.specs.Runs.{Reading, Run};
ghost use Rattle.scenario_text.specs.declared.event.Event.{Event};
ghost use Rattle.std.specs.Prelude.{List};

/// In every run, for every list of events: what a unit puts on a tunnel or a radio has the octets of the link between the two
/// nodes in this direction, for the COUNT that is shown and with numbers of 12 or of 18 bits; a control message that it puts is
/// from it; and where no unit acts, nothing is put or delivered.
pub fn what_is_put_is_laid_out()
    ensures { (reading : Reading) (events : List Event) → AreLaid (Run reading events).events }
{}
