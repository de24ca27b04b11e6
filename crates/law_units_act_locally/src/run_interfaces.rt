//! Laws of the interfaces of control messages in any run. Each function does nothing: its contract is the law.

ghost use Rattle.gnb_types.specs.declared.names.NodeId.{NodeId};
ghost use Rattle.law_units_act_locally.specs.cu_cp_interfaces.Interfaces.{Interface, Joins};
ghost use Rattle.proof_run_steps.specs.steps.Reached.{reached};
ghost use Rattle.law_units_act_locally.specs.run_interfaces.Lines.{AreOf, IsControlMessageOf};
ghost use Rattle.message_types.specs.declared.rrc.Token.{Token};
ghost use Rattle.run_defs.specs.Runs.{plain_world, Reading, Run};
ghost use Rattle.run_defs.specs.States.{new_state, State};
ghost use Rattle.run_defs.specs.Written.{Written};
ghost use Rattle.unit_defs.specs.Messages.{shares_interface};
ghost use Rattle.unit_defs.specs.Ways.{Load, Message, Pdu};
ghost use Rattle.scenario_text.specs.declared.event.Event.{Event};
ghost use Rattle.std.specs.List.{AllByRecursion};
ghost use Rattle.std.specs.Prelude.{List, Some, true, ℕ, ◌≡◌};
ghost use Rattle.transport_defs.specs.declared.ControlMessage.{ControlMessage};

/// In every run of the whole base station, for every list of events: each control message that is put is of the interface between
/// the node that puts it and the one to which it goes. So it is of each line, also of an event at which the run stops.
pub fn messages_are_of_their_interfaces()
    ensures { (reading : Reading) (events : List Event) → AreOf (Run reading events).events }
{}

/// The same of all that were ever put, in each state that a run reaches.
pub fn all_messages_are_of_their_interfaces()
    ensures { (reading : Reading) (events : List Event)
        (t : State (Message Token) Token (Written (Load Pdu)) (Written Pdu))
        → reached (plain_world reading) events new_state ≡ Some t
        → AllByRecursion (λ (e : ℕ × ControlMessage (Message Token)). IsControlMessageOf e.1) t.bag.control_messages }
{}

/// Two nodes that an interface joins share one, as the units' own test has it.
pub fn joined_nodes_share_an_interface()
    ensures { (interface : Interface) (from to : NodeId) → Joins interface from to
        → shares_interface from to ≡ true }
{}
