//! Laws of how long the numbers of a run's terminals are. Each function does nothing: its contract is the law.

ghost use Rattle.law_tunnels_are_owned.specs.run_lengths.Lengths.{NumbersAreOfPlans};
ghost use Rattle.proof_run_steps.specs.steps.Reached.{reached};
ghost use Rattle.message_types.specs.declared.rrc.Token.{Token};
ghost use Rattle.run_defs.specs.Runs.{plain_world, Reading};
ghost use Rattle.run_defs.specs.States.{new_state, State};
ghost use Rattle.run_defs.specs.Written.{Written};
ghost use Rattle.scenario_text.specs.declared.event.Event.{Event};
ghost use Rattle.std.specs.Prelude.{List, Some, ◌≡◌};
ghost use Rattle.unit_defs.specs.Ways.{Load, Message, Pdu};

/// In every run, for every list of events, the numbers of a terminal are as long as its plan says: the octets of each item on a
/// tunnel and of each PDU on a radio are those of what it says with numbers of this length, and so is a packet that is
/// forwarded with its number; and each context at a CU-CP, a CU-UP and a DU has this length.
pub fn numbers_are_of_their_plans()
    ensures { (reading : Reading) (events : List Event)
        (t : State (Message Token) Token (Written (Load Pdu)) (Written Pdu))
        → reached (plain_world reading) events new_state ≡ Some t → NumbersAreOfPlans t }
{}
