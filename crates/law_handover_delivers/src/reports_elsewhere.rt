//! Laws of the steps of a run that aren't a terminal's own, beside what reports to a CU-UP what the terminal received. Each function does
//! nothing: its contract is the law.

ghost use Rattle.gnb_types.specs.declared.names.BearerId.{BearerId};
ghost use Rattle.gnb_types.specs.declared.names.Gnb.{Gnb};
ghost use Rattle.gnb_types.specs.declared.names.UeId.{UeId};
ghost use Rattle.proof_bearer_refinement.specs.frame_downlink_radio.Nodes.{HasNoRadio};
ghost use Rattle.proof_bearer_refinement.specs.core_step.Core.{IsCoreStep, IsOffer};
ghost use Rattle.law_terminals_are_isolated.specs.own_steps.Own.{IsActed};
ghost use Rattle.proof_bearer_refinement.specs.du_puts.Puts.{IsDuStep};
ghost use Rattle.proof_bearer_refinement.specs.carried_was_received.Known.{AreKnown};
ghost use Rattle.proof_bearer_refinement.specs.downlink_radio.Down.{down_key};
ghost use Rattle.proof_bearer_refinement.specs.uplink_radio.Radio.{RunCause, RunState};
ghost use Rattle.proof_bearer_refinement.specs.run_unit_inputs.Happenings.{DuRecord};
ghost use Rattle.proof_bearer_refinement.specs.runs.Fair.{IsFair};
ghost use Rattle.proof_run_steps.specs.steps.Causes.{count_of, first_of, node_of};
ghost use Rattle.law_handover_delivers.specs.report_links.Reports.{ReportsAreTrue, RunPut};
ghost use Rattle.message_types.specs.declared.rrc.Token.{Token};
ghost use Rattle.run_defs.specs.Lines.{RunLine};
ghost use Rattle.run_defs.specs.Runs.{plain_world, Reading};
ghost use Rattle.run_defs.specs.States.{goes, radio_of, sn_of};
ghost use Rattle.run_defs.specs.Steps.{carried_out};
ghost use Rattle.run_defs.specs.Units.{Units, with_du};
ghost use Rattle.run_defs.specs.Written.{written_put};
ghost use Rattle.transport_defs.specs.declared.ControlMessage.{ControlMessage};
ghost use Rattle.scenario_text.specs.declared.event.Event.{Event};
ghost use Rattle.std.specs.Prelude.{List, map, ◌≡◌, ℕ};
ghost use Rattle.unit_defs.specs.Core.{CorePath, CoreRecord};
ghost use Rattle.unit_defs.specs.Ways.{Input, Message, Output, Pdu};

/// In each fair state, such as a run passes: where all that stands on a bearer's tunnels and on its radio up reports only what its terminal
/// received, it does so after each step of a CU-CP or a CU-UP: these put no such report.
pub fn units_without_a_radio_keep_reports_true()
    ensures { (reading : Reading) (ue : UeId) (bearer : BearerId) (deliv : ℕ) (s t : RunState)
        (event : Event) (cause : RunCause) (outputs : List RunPut) (units : Units (Message Token) Token)
        (lines : List (RunLine (Message Token)))
        → IsFair s → IsActed (plain_world reading) event s cause outputs units
        → HasNoRadio (node_of cause)
        → carried_out (plain_world reading) (node_of cause) (count_of cause)
        (first_of (plain_world reading) cause) outputs units s ≡ goes lines t
        → ReportsAreTrue ue bearer deliv s → ReportsAreTrue ue bearer deliv t }
{}

/// And so it is after each step of a DU, where what was carried on the terminal's radio down and isn't confirmed was received: a DU reports
/// what is confirmed there, and passes on what comes up.
pub fn a_du_keeps_reports_true()
    ensures { (reading : Reading) (event : Event) (s t : RunState) (ue : UeId) (bearer : BearerId)
        (deliv : ℕ) (gnb : Gnb) (number : ℕ) (cause : RunCause) (input : Input Token Pdu)
        (outputs : List (Output (Message Token) Pdu)) (left : DuRecord)
        → IsFair s
        → IsActed (plain_world reading) event s cause (map (written_put (sn_of s)) outputs)
        (with_du s.units gnb number left)
        → IsDuStep reading s t gnb number cause input outputs left
        → AreKnown (radio_of s (down_key ue bearer)) deliv
        → ReportsAreTrue ue bearer deliv s → ReportsAreTrue ue bearer deliv t }
{}

/// And so it is where the core takes a message, and where a packet is offered there.
pub fn the_core_keeps_reports_true()
    ensures messages { (reading : Reading) (s t : RunState) (ue : UeId) (bearer : BearerId) (deliv : ℕ)
        (number : ℕ) (l : ControlMessage (Message Token)) (outputs : List (Output (Message Token) Pdu))
        (core : CoreRecord (Message Token) Token) → IsFair s
        → IsCoreStep reading s t number l outputs core
        → ReportsAreTrue ue bearer deliv s → ReportsAreTrue ue bearer deliv t }
    ensures offers { (reading : Reading) (s t : RunState) (ue : UeId) (bearer : BearerId) (deliv : ℕ)
        (who : UeId) (which : BearerId) (packet : List ℕ) (path : CorePath)
        → IsOffer reading s t who which packet path
        → ReportsAreTrue ue bearer deliv s → ReportsAreTrue ue bearer deliv t }
{}
