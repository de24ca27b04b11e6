//! Laws of the packets of a run, with the lengths of its terminals' numbers. Each function does nothing: its contract is the law.

ghost use Rattle.law_units_act_locally.specs.local_lengths.Long.{PutsLong, SaysLong};
ghost use Rattle.law_units_act_locally.specs.local_packets.Local.{LocalFrom};
ghost use Rattle.run_defs.specs.Local.{acts_of, sn_in};
ghost use Rattle.run_defs.specs.Runs.{Reading, Run};
ghost use Rattle.scenario_text.specs.declared.event.Event.{Event};
ghost use Rattle.std.specs.Prelude.{List, []};

/// In every run, for every list of events: what a unit puts on a link has exactly the octets of the link between the two nodes
/// in this direction, for the COUNT that is shown and with numbers of the length that the terminal's `static` or `attach` says;
/// and each packet that a unit puts or delivers was offered at this unit for the same terminal, bearer and direction, or stood in
/// an item of these that this unit got, read with numbers of this length, in the same step or an earlier one.
pub fn packets_are_local_by_length()
    ensures { (reading : Reading) (events : List Event)
        → LocalFrom (SaysLong (sn_in (Run reading events).events)) (PutsLong (sn_in (Run reading events).events)) []
        (acts_of (Run reading events).events) }
{}
