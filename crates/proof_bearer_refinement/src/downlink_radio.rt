//! Laws of the radio down between a DU and a terminal in a run, beside a bearer's model down. Each function does nothing: its contract is
//! the law.

ghost use Rattle.bearer_defs.specs.chain_defs.Orders.{ModelStep, run};
ghost use Rattle.bearer_defs.specs.chain_defs.Models.{Model};
ghost use Rattle.gnb_types.specs.declared.names.BearerId.{BearerId};
ghost use Rattle.gnb_types.specs.declared.names.NodeId.{NodeId};
ghost use Rattle.gnb_types.specs.declared.names.SnBits.{SnBits};
ghost use Rattle.gnb_types.specs.declared.names.UeId.{UeId};
ghost use Rattle.law_downlink_order.specs.received_packets.Received.{LeavesRadio};
ghost use Rattle.proof_bearer_refinement.specs.downlink_radio.Down.{down_key, IsDown, packets_down, Puts, Stays, WasReceived};
ghost use Rattle.proof_bearer_refinement.specs.downlink_radio.Received.{received_by, IsKept, AssumedReceived, AssumedRest};
ghost use Rattle.proof_run_steps.specs.radio_steps.Radios.{OnAir, on_air};
ghost use Rattle.proof_bearer_refinement.specs.uplink_radio.Radio.{IsAtTerminal, IsFrameStep, IsUeStep, OnRadio, RunCause, RunState};
ghost use Rattle.proof_run_steps.specs.law_run_links.Own.{HoldTheirOwn};
ghost use Rattle.proof_run_steps.specs.steps.Causes.{by_ack, Stands};
ghost use Rattle.proof_node_orders.specs.terminal_inputs.Inputs.{Models};
ghost use Rattle.law_downlink_order.specs.waiting_frames.Frames.{Fits};
ghost use Rattle.message_types.specs.declared.rrc.Token.{Token};
ghost use Rattle.run_defs.specs.Runs.{Reading};
ghost use Rattle.run_defs.specs.Units.{Units};
ghost use Rattle.run_defs.specs.Written.{Written};
ghost use Rattle.transport_defs.specs.Links.{silent};
ghost use Rattle.scenario_text.specs.declared.event.Event.{Event};
ghost use Rattle.std.specs.List.{AllByRecursion};
ghost use Rattle.std.specs.Prelude.{List, Option, ℕ, ◌<◌, ◌≡◌};
ghost use Rattle.unit_defs.specs.Ue.{UeNode};
ghost use Rattle.unit_defs.specs.Ways.{Input, Message, Output, Pdu};

/// Where what waits on a terminal's radio down was put for the present radio and has no gap, and the terminal has room for any packet, it
/// is so after each step of the terminal's own, whatever this is given, with the orders of its input: so a packet that it takes is the
/// next to be received, or was received before, and was put for the present radio, whatever was lost before it.
pub fn a_terminal_takes_what_stands_first()
    ensures { (reading : Reading) (event : Event) (s t : RunState) (ue : UeId) (bearer : BearerId)
        (b : Models) (refinement : IsAtTerminal reading ue bearer s b) (sn : SnBits) (quota : ℕ)
        → IsKept sn quota b.down → IsDown (on_air s (down_key ue bearer)) b.down
        → 0 < refinement.terminal.plan.quota → (v : UeNode) (cause : RunCause) (input : Input Token Pdu)
        (outputs : List (Output (Message Token) Pdu))
        → IsUeStep reading event s t ue refinement.terminal v cause input outputs → HoldTheirOwn s
        → (to : Option ℕ)
        → (AssumedRest refinement.terminal b bearer to input → AssumedReceived refinement.terminal b bearer to input)
        × IsDown (on_air t (down_key ue bearer))
        (run b.down (received_by refinement.terminal b bearer to input).down) }
{}

/// Every other step of a unit keeps it so, with orders of the model that begin no other radio and carry nothing, where what the step puts
/// on that radio fits: it was put for the present radio, and leaves no gap behind what waits there. And what is confirmed there to a DU
/// was received.
pub fn others_keep_the_radio_down()
    ensures keeps { (reading : Reading) (event : Event) (s t : RunState) (ue : UeId)
        (bearer : BearerId) (d : Model) (refinement : IsDown (on_air s (down_key ue bearer)) d)
        (cause : RunCause) (outputs : Puts) (units : Units (Message Token) Token)
        → Stands event s cause → Stays (down_key ue bearer) cause
        → IsFrameStep reading s t ue bearer cause outputs units
        → (orders : List ModelStep) → AllByRecursion LeavesRadio orders
        → Fits (run d orders) refinement.waits
        (packets_down (down_key ue bearer) (on_air s (down_key ue bearer)).epoch outputs)
        → IsDown (on_air t (down_key ue bearer)) (run d orders) }
    ensures received { (event : Event) (s : RunState) (ue : UeId) (bearer : BearerId) (d : Model)
        → IsDown (on_air s (down_key ue bearer)) d → (home : NodeId) (item : OnRadio)
        (rest : List OnRadio) → Stands event s (by_ack (down_key ue bearer) home item rest)
        → WasReceived d item.content.says }
{}

/// A radio on which nothing stands is so, whatever the model is: as where the terminal comes to a DU, and where its radio begins anew.
pub fn a_silent_radio_is_so()
    ensures { (air : OnAir (Written Pdu)) (d : Model) → air.radio ≡ silent → IsDown air d }
{}
