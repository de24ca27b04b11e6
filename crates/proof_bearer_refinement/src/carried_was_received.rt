//! Laws of a terminal's radio down in a run: what was carried there and isn't confirmed to the DU was received. Each function does nothing:
//! its contract is the law.

ghost use Rattle.gnb_types.specs.declared.keys.EntityKey.{EntityKey};
ghost use Rattle.gnb_types.specs.declared.names.NodeId.{NodeId};
ghost use Rattle.proof_bearer_refinement.specs.carried_was_received.Known.{AreKnown, Receives, WasBelow};
ghost use Rattle.proof_bearer_refinement.specs.downlink_radio.Down.{down_key, IsDown};
ghost use Rattle.proof_bearer_refinement.specs.downlink_radio.Received.{received_by, IsKept, AssumedReceived};
ghost use Rattle.proof_run_steps.specs.law_run_links.Own.{HoldTheirOwn};
ghost use Rattle.proof_node_orders.specs.terminal_inputs.Inputs.{Models};
ghost use Rattle.gnb_types.specs.declared.names.BearerId.{BearerId};
ghost use Rattle.gnb_types.specs.declared.names.SnBits.{SnBits};
ghost use Rattle.gnb_types.specs.declared.names.UeId.{UeId};
ghost use Rattle.bearer_defs.specs.chain_defs.Orders.{run};
ghost use Rattle.unit_defs.specs.Ue.{UeNode};
ghost use Rattle.proof_run_steps.specs.radio_steps.Radios.{OnAir};
ghost use Rattle.proof_bearer_refinement.specs.uplink_radio.Radio.{OnRadio, RunCause, RunState};
ghost use Rattle.proof_run_steps.specs.steps.Causes.{by_ack, count_of, first_of, given_of, node_of, Stands};
ghost use Rattle.message_types.specs.declared.rrc.Token.{Token};
ghost use Rattle.run_defs.specs.Lines.{RunLine};
ghost use Rattle.run_defs.specs.Runs.{input_of, plain_world, Reading};
ghost use Rattle.run_defs.specs.States.{goes, radio_of, ◌next◌};
ghost use Rattle.run_defs.specs.Steps.{carried_out, check_spans, put_out_all};
ghost use Rattle.run_defs.specs.Units.{Units};
ghost use Rattle.run_defs.specs.Written.{Written};
ghost use Rattle.transport_defs.specs.Links.{Radio, silent};
ghost use Rattle.scenario_text.specs.declared.event.Event.{Event};
ghost use Rattle.std.specs.Prelude.{List, Option, Some, ◌≡◌, ◌≤◌, ◌<◌, ℕ};
ghost use Rattle.bearer_defs.specs.chain_defs.Models.{Model};
ghost use Rattle.unit_defs.specs.Ways.{Input, Load, Message, Pdu, Put};

/// It is so of a radio on which nothing stands, and where more was received; it is so where what waits there was put for the present radio
/// and has no gap, as `downlink_radio` has it; and what is confirmed there to a DU was received.
pub fn what_is_known_stays_so()
    ensures silent { (deliv : ℕ) → AreKnown silent deliv }
    ensures later { (r : Radio (Written Pdu)) (deliv later : ℕ)
        → deliv ≤ later → AreKnown r deliv → AreKnown r later }
    ensures less { (a : OnAir (Written Pdu)) (d : Model)
        → IsDown a d → AreKnown a.radio d.terminal.deliv }
    ensures confirmed { (event : Event) (s : RunState) (key : EntityKey) (deliv : ℕ)
        → AreKnown (radio_of s key) deliv → (home : NodeId) (item : OnRadio) (rest : List OnRadio)
        → Stands event s (by_ack key home item rest) → WasBelow deliv item.content.says }
{}

/// It is so after each step of a run, whatever makes it and whatever it puts, where a packet that is carried there was received; and after
/// what the core puts.
pub fn a_step_keeps_what_is_known()
    ensures acts { (reading : Reading) (event : Event) (s t : RunState) (key : EntityKey) (deliv : ℕ)
        (cause : RunCause) (outputs : List (Put (Message Token) (Written (Load Pdu)) (Written Pdu)))
        (units : Units (Message Token) Token) (lines : List (RunLine (Message Token)))
        → Stands event s cause → Receives key deliv cause
        → carried_out (plain_world reading) (node_of cause) (count_of cause)
        (first_of (plain_world reading) cause) outputs units s ≡ goes lines t
        → AreKnown (radio_of s key) deliv → AreKnown (radio_of t key) deliv }
    ensures puts { (reading : Reading) (s t : RunState) (key : EntityKey) (deliv : ℕ)
        (node : NodeId) (taken : Option ℕ)
        (outputs : List (Put (Message Token) (Written (Load Pdu)) (Written Pdu)))
        (lines : List (RunLine (Message Token)))
        → (put_out_all (plain_world reading) node taken outputs s next check_spans) ≡ goes lines t
        → AreKnown (radio_of s key) deliv → AreKnown (radio_of t key) deliv }
{}

/// A packet that a terminal takes on its radio down was received then, by the orders of its input, where none before it is missing and it
/// was put for the present radio or received before, and the terminal has room for a packet; the model came there by kept orders.
pub fn what_a_terminal_takes_was_received()
    ensures { (reading : Reading) (event : Event) (s : RunState) (u : UeNode) (b : Models) (ue : UeId)
        (bearer : BearerId) (to : Option ℕ) (sn : SnBits) (quota : ℕ) → IsKept sn quota b.down
        → 0 < u.plan.quota → HoldTheirOwn s → (input : Input Token Pdu) (cause : RunCause)
        → input_of reading (given_of cause) ≡ Some input → Stands event s cause
        → AssumedReceived u b bearer to input
        → Receives (down_key ue bearer) (run b.down (received_by u b bearer to input).down).terminal.deliv cause }
{}
