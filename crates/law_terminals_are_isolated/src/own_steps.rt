//! Laws of the steps of a run: each with what is for a terminal is that terminal's, and leaves the others. Each function does
//! nothing: its contract is the law.

ghost use Rattle.gnb_types.specs.declared.names.UeId.{UeId};
ghost use Rattle.law_terminals_are_isolated.specs.frame_of_steps.Others.{IsOutputFor, IsStepFor};
ghost use Rattle.law_terminals_are_isolated.specs.own_steps.Own.{IsActed, LeavesOthers};
ghost use Rattle.law_terminals_are_isolated.specs.run_projections.Units.{given_ue};
ghost use Rattle.proof_run_steps.specs.steps.Causes.{Cause, count_of, first_of, given_of, node_of};
ghost use Rattle.proof_run_steps.specs.steps.Reached.{reached};
ghost use Rattle.message_types.specs.declared.rrc.Token.{Token};
ghost use Rattle.run_defs.specs.Lines.{RunLine};
ghost use Rattle.run_defs.specs.Runs.{plain_world, Reading};
ghost use Rattle.run_defs.specs.States.{goes, new_state, State};
ghost use Rattle.run_defs.specs.Steps.{carried_out};
ghost use Rattle.run_defs.specs.Units.{Units};
ghost use Rattle.run_defs.specs.Written.{Written};
ghost use Rattle.scenario_text.specs.declared.event.Event.{Event};
ghost use Rattle.std.specs.List.{AllByRecursion};
ghost use Rattle.std.specs.Prelude.{List, Some, ◌≡◌};
ghost use Rattle.unit_defs.specs.Ways.{Load, Message, Pdu, Put};

/// In every state that a run reaches, whatever makes a unit act with what is for a terminal: the step is the terminal's, and so is
/// all that it puts out; and on a tunnel that it closes nothing of another terminal stands.
pub fn each_step_and_output_is_one_terminals()
    ensures { (reading : Reading) (events : List Event)
        (t : State (Message Token) Token (Written (Load Pdu)) (Written Pdu)) (event : Event)
        (ue : UeId)
        (cause : Cause (Message Token) (Written (Load Pdu)) (Written Pdu))
        (outputs : List (Put (Message Token) (Written (Load Pdu)) (Written Pdu)))
        (units : Units (Message Token) Token)
        → reached (plain_world reading) events new_state ≡ Some t
        → IsActed (plain_world reading) event t cause outputs units
        → given_ue reading t.units (node_of cause) (given_of cause) ≡ Some ue
        → IsStepFor ue t cause × AllByRecursion (IsOutputFor ue t (node_of cause)) outputs }
{}

/// So in every state that a run reaches, a step of a unit with what is for a terminal leaves the whole projections of all others: what
/// every unit and the core keep of them, which open TEIDs are theirs, and all that the run keeps beside, on every link.
pub fn each_step_leaves_the_others()
    ensures { (reading : Reading) (events : List Event)
        (s t : State (Message Token) Token (Written (Load Pdu)) (Written Pdu)) (event : Event)
        (ue : UeId)
        (cause : Cause (Message Token) (Written (Load Pdu)) (Written Pdu))
        (outputs : List (Put (Message Token) (Written (Load Pdu)) (Written Pdu)))
        (units : Units (Message Token) Token)
        (lines : List (RunLine (Message Token)))
        → reached (plain_world reading) events new_state ≡ Some s
        → IsActed (plain_world reading) event s cause outputs units
        → given_ue reading s.units (node_of cause) (given_of cause) ≡ Some ue
        → carried_out (plain_world reading) (node_of cause) (count_of cause)
        (first_of (plain_world reading) cause)
        outputs units s ≡ goes lines t → LeavesOthers ue s t }
{}
