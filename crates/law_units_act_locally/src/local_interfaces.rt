//! A law of every run: nothing passes but over the links, and each control message on its interface. Each function does nothing: its
//! contract is the law.

ghost use Rattle.gnb_types.specs.declared.names.NodeId.{NodeId};
ghost use Rattle.law_units_act_locally.specs.cu_cp_interfaces.Interfaces.{IsOf};
ghost use Rattle.law_units_act_locally.specs.local.Offered.{OffersHaveOctets};
ghost use Rattle.law_units_act_locally.specs.local_interfaces.Example.{to_the_core};
ghost use Rattle.message_types.specs.declared.rrc.Token.{Token};
ghost use Rattle.run_defs.specs.Local.{Local, LocalFrom};
ghost use Rattle.run_defs.specs.Runs.{Reading, Run};
ghost use Rattle.run_defs.specs.States.{Lengths};
ghost use Rattle.unit_defs.specs.Ways.{Message};
ghost use Rattle.scenario_text.specs.declared.event.Event.{Event};
ghost use Rattle.std.specs.Prelude.{Bool, true, List, [], ◌∷◌, ◌≡◌};

/// In every run whose script offers no empty packet, as every script that is read is: `Local`, where a control message is of the
/// interface between the unit that puts it and the node to which it goes, and is spelled so where every message of an interface
/// is spelled so between its two nodes.
pub fn what_is_put_is_local_on_its_interface()
    ensures { (reading : Reading) (events : List Event)
        (is_spelled : NodeId → NodeId → Message Token → Bool)
        → OffersHaveOctets events
        → ((from to : NodeId) (message : Message Token) → IsOf from to message
        → is_spelled from to message ≡ true)
        → Local (λ from to message. IsOf from to message × (is_spelled from to message ≡ true))
        (Run reading events).events }
{}

/// A CU-CP may not put a message of F1 to the core.
pub fn the_law_says_something()
    ensures { (lengths : Lengths) → LocalFrom lengths IsOf [] (to_the_core ∷ []) → ⊥ }
{}
