//! A law of the steps of units that are no terminals, beside a radio up. The function does nothing: its contract is the law.

ghost use Rattle.gnb_types.specs.declared.names.BearerId.{BearerId};
ghost use Rattle.gnb_types.specs.declared.names.UeId.{UeId};
ghost use Rattle.proof_bearer_refinement.specs.frame_other_units.Nodes.{IsNoTerminal};
ghost use Rattle.law_terminals_are_isolated.specs.own_steps.Own.{IsActed};
ghost use Rattle.proof_bearer_refinement.specs.uplink_radio.Radio.{IsFrameStep, RunCause, RunState};
ghost use Rattle.proof_bearer_refinement.specs.runs.Fair.{IsFair};
ghost use Rattle.proof_run_steps.specs.steps.Causes.{count_of, first_of, node_of};
ghost use Rattle.message_types.specs.declared.rrc.Token.{Token};
ghost use Rattle.run_defs.specs.Lines.{RunLine};
ghost use Rattle.run_defs.specs.Runs.{plain_world, Reading};
ghost use Rattle.run_defs.specs.States.{goes};
ghost use Rattle.run_defs.specs.Steps.{carried_out};
ghost use Rattle.run_defs.specs.Units.{Units};
ghost use Rattle.run_defs.specs.Written.{Written};
ghost use Rattle.scenario_text.specs.declared.event.Event.{Event};
ghost use Rattle.std.specs.Prelude.{List, ◌≡◌};
ghost use Rattle.unit_defs.specs.Ways.{Load, Message, Pdu, Put};

/// In each fair state, such as a run passes: a step of a CU-CP, a CU-UP or a DU changes no terminal, and puts nothing on a radio up.
pub fn steps_of_other_units_are_beside()
    ensures { (reading : Reading) (ue : UeId) (bearer : BearerId) (s t : RunState) (event : Event)
        (cause : RunCause)
        (outputs : List (Put (Message Token) (Written (Load Pdu)) (Written Pdu)))
        (units : Units (Message Token) Token) (lines : List (RunLine (Message Token)))
        → IsFair s → IsActed (plain_world reading) event s cause outputs units
        → IsNoTerminal (node_of cause)
        → carried_out (plain_world reading) (node_of cause) (count_of cause)
        (first_of (plain_world reading) cause) outputs units s ≡ goes lines t
        → IsFrameStep reading s t ue bearer cause outputs units }
{}
