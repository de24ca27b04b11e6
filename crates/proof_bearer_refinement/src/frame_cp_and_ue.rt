//! A law of the steps of a run that leave a bearer's contexts and tunnels. Each function does nothing: its contract is the law.

ghost use Rattle.gnb_types.specs.declared.names.BearerId.{BearerId};
ghost use Rattle.gnb_types.specs.declared.names.UeId.{UeId};
ghost use Rattle.law_terminals_are_isolated.specs.own_steps.Own.{IsActed};
ghost use Rattle.proof_bearer_refinement.specs.frame_cp_and_ue.Nodes.{PutsNoItem};
ghost use Rattle.proof_bearer_refinement.specs.run_bearers.Bearers.{Numbering};
ghost use Rattle.proof_bearer_refinement.specs.run_bearers.Things.{PlainUnits};
ghost use Rattle.proof_run_steps.specs.steps.Causes.{count_of, first_of, node_of};
ghost use Rattle.proof_bearer_refinement.specs.refinement_facts.Asked.{RunCause};
ghost use Rattle.proof_bearer_refinement.specs.refinement_facts.Refinements.{RunState};
ghost use Rattle.proof_bearer_refinement.specs.runs.Steps.{LeavesBearer};
ghost use Rattle.proof_bearer_refinement.specs.runs.Fair.{IsFair};
ghost use Rattle.message_types.specs.declared.rrc.Token.{Token};
ghost use Rattle.run_defs.specs.Lines.{RunLine};
ghost use Rattle.run_defs.specs.Runs.{plain_world, Reading};
ghost use Rattle.run_defs.specs.States.{goes};
ghost use Rattle.run_defs.specs.Steps.{carried_out};
ghost use Rattle.run_defs.specs.Written.{Written};
ghost use Rattle.scenario_text.specs.declared.event.Event.{Event};
ghost use Rattle.std.specs.Prelude.{List, ◌≡◌};
ghost use Rattle.unit_defs.specs.Ways.{Load, Message, Pdu, Put};

/// In each fair state, such as a run passes: a step of a CU-CP or of a terminal, whatever makes it act, leaves all of a bearer's contexts,
/// whose its tunnels are, and what stands on them.
pub fn units_without_items_leave_the_bearer()
    ensures { (reading : Reading) (n : Numbering) (ue : UeId) (bearer : BearerId) (s t : RunState)
        (event : Event) (cause : RunCause)
        (outputs : List (Put (Message Token) (Written (Load Pdu)) (Written Pdu)))
        (units : PlainUnits) (lines : List (RunLine (Message Token)))
        → IsFair s → IsActed (plain_world reading) event s cause outputs units
        → PutsNoItem (node_of cause)
        → carried_out (plain_world reading) (node_of cause) (count_of cause)
        (first_of (plain_world reading) cause) outputs units s ≡ goes lines t
        → LeavesBearer n ue bearer s t }
{}
