//! A law of the steps of CU-CPs and CU-UPs in a run, beside a terminal's radio down. The function does nothing: its contract is the law.

ghost use Rattle.bearer_defs.specs.chain_defs.Orders.{ModelStep, run};
ghost use Rattle.bearer_defs.specs.chain_defs.Models.{Model};
ghost use Rattle.gnb_types.specs.declared.names.BearerId.{BearerId};
ghost use Rattle.gnb_types.specs.declared.names.UeId.{UeId};
ghost use Rattle.proof_bearer_refinement.specs.frame_downlink_radio.Nodes.{HasNoRadio};
ghost use Rattle.law_downlink_order.specs.received_packets.Received.{LeavesRadio};
ghost use Rattle.law_terminals_are_isolated.specs.own_steps.Own.{IsActed};
ghost use Rattle.proof_bearer_refinement.specs.downlink_radio.Down.{down_key, IsDown, Puts, Stays};
ghost use Rattle.proof_run_steps.specs.radio_steps.Radios.{on_air};
ghost use Rattle.proof_bearer_refinement.specs.uplink_radio.Radio.{RunCause, RunState};
ghost use Rattle.proof_bearer_refinement.specs.runs.Fair.{IsFair};
ghost use Rattle.proof_run_steps.specs.steps.Causes.{count_of, first_of, node_of};
ghost use Rattle.message_types.specs.declared.rrc.Token.{Token};
ghost use Rattle.run_defs.specs.Lines.{RunLine};
ghost use Rattle.run_defs.specs.Runs.{plain_world, Reading};
ghost use Rattle.run_defs.specs.States.{goes};
ghost use Rattle.run_defs.specs.Steps.{carried_out};
ghost use Rattle.run_defs.specs.Units.{Units};
ghost use Rattle.scenario_text.specs.declared.event.Event.{Event};
ghost use Rattle.std.specs.List.{AllByRecursion};
ghost use Rattle.std.specs.Prelude.{List, ◌≡◌};
ghost use Rattle.unit_defs.specs.Ways.{Message};

/// In each fair state, such as a run passes: a step of a CU-CP or a CU-UP, but the release of the terminal, leaves what waits on a
/// terminal's radio down as it is to be, whatever orders of the model come with it that begin no other radio and carry nothing.
pub fn units_without_a_radio_keep_it()
    ensures { (reading : Reading) (ue : UeId) (bearer : BearerId) (s t : RunState) (event : Event)
        (cause : RunCause) (outputs : Puts) (units : Units (Message Token) Token)
        (lines : List (RunLine (Message Token))) (d : Model)
        → IsFair s → IsActed (plain_world reading) event s cause outputs units
        → HasNoRadio (node_of cause) → Stays (down_key ue bearer) cause
        → carried_out (plain_world reading) (node_of cause) (count_of cause)
        (first_of (plain_world reading) cause) outputs units s ≡ goes lines t
        → IsDown (on_air s (down_key ue bearer)) d
        → (orders : List ModelStep) → AllByRecursion LeavesRadio orders
        → IsDown (on_air t (down_key ue bearer)) (run d orders) }
{}
