//! A law of what the units of a run do for one terminal. Each function does nothing: its contract is the law.

ghost use Rattle.gnb_types.specs.declared.names.NodeId.{NodeId};
ghost use Rattle.gnb_types.specs.declared.names.UeId.{UeId};
ghost use Rattle.law_terminals_are_isolated.specs.run_projections.Units.{given_ue, IsUnitsStepOf};
ghost use Rattle.proof_run_steps.specs.steps.Reached.{reached};
ghost use Rattle.message_types.specs.declared.rrc.Token.{Token};
ghost use Rattle.run_defs.specs.Runs.{plain_world, PlainGiven, Reading};
ghost use Rattle.run_defs.specs.States.{Lengths, new_state, State};
ghost use Rattle.run_defs.specs.Written.{Written};
ghost use Rattle.scenario_text.specs.declared.event.Event.{Event};
ghost use Rattle.std.specs.Prelude.{List, Some, ◌≡◌};
ghost use Rattle.unit_defs.specs.Ways.{Load, Message, Pdu};

/// In every state of every run, whichever unit is given what is for a terminal: all that it puts out is the terminal's, and what
/// all units keep of the other terminals stays. No TEID of a DU is two terminals' there, and each terminal is kept as itself.
pub fn each_step_is_one_terminals()
    ensures { (reading : Reading) (events : List Event)
        (t : State (Message Token) Token (Written (Load Pdu)) (Written Pdu)) (lengths : Lengths) (node : NodeId)
        (given : PlainGiven) (ue : UeId) → reached (plain_world reading) events new_state ≡ Some t
        → given_ue reading t.units node given ≡ Some ue
        → IsUnitsStepOf ue t.units ((plain_world reading).answer lengths t.units node given) }
{}
