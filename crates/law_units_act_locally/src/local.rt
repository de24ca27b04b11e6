//! The law that units act on what they got, of a run of the whole base station. Each function does nothing: its contract is the law.

ghost use Rattle.gnb_types.specs.declared.names.NodeId.{NodeId};
ghost use Rattle.law_units_act_locally.specs.local.Example.{without_octets};
ghost use Rattle.law_units_act_locally.specs.local.Offered.{OffersHaveOctets};
ghost use Rattle.law_units_act_locally.specs.local_packets.Example.{from_nowhere};
ghost use Rattle.message_types.specs.declared.rrc.Token.{Token};
ghost use Rattle.run_defs.specs.Local.{Local, LocalFrom};
ghost use Rattle.run_defs.specs.Runs.{Reading, Run};
ghost use Rattle.run_defs.specs.States.{Lengths};
ghost use Rattle.scenario_text.specs.declared.event.Event.{Event};
ghost use Rattle.std.specs.Prelude.{Bool, true, List, [], ◌∷◌, ◌≡◌};
ghost use Rattle.unit_defs.specs.Ways.{Message};

/// In every run whose script offers no empty packet: what a unit puts on a link has exactly the octets of the link between the two
/// nodes in this direction, for the COUNT that is shown and with numbers of the terminal's length; each packet that is put or
/// delivered was offered at this unit for the same terminal, bearer and direction, in an offer that was not refused, or is in an
/// item of these that this unit got, in the same step or an earlier one, where the packet in an item is the one as which its octets
/// decode on the link; a control message that a unit puts is from it, and is spelled so where every message is; and where no unit
/// acts, nothing is put or delivered.
pub fn what_is_put_is_local()
    ensures { (reading : Reading) (events : List Event) (is_spelled : NodeId → NodeId → Message Token → Bool)
        → OffersHaveOctets events
        → ((from to : NodeId) (message : Message Token) → is_spelled from to message ≡ true)
        → Local (λ from to message. is_spelled from to message ≡ true) (Run reading events).events }
{}

/// What a unit never got it may not deliver, and what has not the octets of its link it may not put.
pub fn the_law_says_something()
    ensures forbids { (lengths : Lengths)
        → LocalFrom lengths (λ from to message. true ≡ true) [] (from_nowhere ∷ []) → ⊥ }
    ensures octets { (lengths : Lengths)
        → LocalFrom lengths (λ from to message. true ≡ true) [] (without_octets ∷ []) → ⊥ }
{}
