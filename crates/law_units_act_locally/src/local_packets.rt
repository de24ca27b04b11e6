//! Laws of the packets of a run. Each function does nothing: its contract is the law.

ghost use Rattle.law_units_act_locally.specs.local_packets.Example.{from_another, from_nowhere, packet_up, uplink};
ghost use Rattle.law_units_act_locally.specs.local_packets.Local.{LocalFrom};
ghost use Rattle.law_units_act_locally.specs.local_packets.Says.{SaysAlone, SaysInOctets, showing_packets};
ghost use Rattle.run_defs.specs.Local.{acts_of};
ghost use Rattle.run_defs.specs.Runs.{Reading, Run, run};
ghost use Rattle.run_defs.specs.Said.{Delivered};
ghost use Rattle.scenario_text.specs.declared.event.Event.{Event};
ghost use Rattle.std.specs.Prelude.{List, [], ◌∷◌, ◌≡◌};

/// In every run, for every list of events, each packet that a unit puts on a link or delivers was offered at this unit for the
/// same terminal, bearer and direction, or stood in an item of these that this unit got, in the same step or an earlier one.
/// `run`: an item's packet is read of its octets, for the COUNT that is shown, with numbers of one of the two lengths.
/// `packets`: the same where the run shows packets in place of octets.
pub fn packets_are_local()
    ensures run { (reading : Reading) (events : List Event)
        → LocalFrom SaysInOctets (λ node. SaysInOctets) [] (acts_of (Run reading events).events) }
    ensures packets { (reading : Reading) (events : List Event)
        → LocalFrom SaysAlone (λ node. SaysAlone) [] (acts_of (run (showing_packets reading) events).events) }
{}

/// A packet is delivered by a run, so the law speaks of something; and what a CU-UP never got it may not deliver, nor on one
/// bearer what it got on another.
pub fn the_law_says_something()
    ensures delivers { (reading : Reading)
        → Delivered uplink (Run reading packet_up).events ≡ (69 ∷ []) ∷ [] }
    ensures forbids { LocalFrom SaysAlone (λ node. SaysAlone) [] (from_nowhere ∷ []) → ⊥ }
    ensures parts { LocalFrom SaysAlone (λ node. SaysAlone) [] (from_another ∷ []) → ⊥ }
{}
