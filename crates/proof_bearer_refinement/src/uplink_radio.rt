//! Laws of the radio up between a terminal and a DU in a run, and the lists of a bearer's model. Each function does nothing: its contract
//! is the law.

ghost use Rattle.gnb_types.specs.declared.names.BearerId.{BearerId};
ghost use Rattle.gnb_types.specs.declared.names.NodeId.{NodeId};
ghost use Rattle.gnb_types.specs.declared.names.UeId.{UeId};
ghost use Rattle.proof_node_orders.specs.du_steps.Steps.{order_of};
ghost use Rattle.proof_bearer_refinement.specs.uplink_radio.Radio.{IsAtTerminal, IsFrameStep, IsUeStep, Leaves, OnRadio, AssumedOnRadio, RunCause, RunState, StandsNext, up_key};
ghost use Rattle.proof_run_steps.specs.law_run_links.Own.{HoldTheirOwn};
ghost use Rattle.proof_run_steps.specs.steps.Causes.{by_air, Stands};
ghost use Rattle.proof_node_orders.specs.terminal_inputs.Inputs.{carried_out, orders_by, Models};
ghost use Rattle.message_types.specs.declared.rrc.Token.{Token};
ghost use Rattle.run_defs.specs.Runs.{plain_way, Reading};
ghost use Rattle.run_defs.specs.Units.{Units};
ghost use Rattle.run_defs.specs.Written.{Written};
ghost use Rattle.scenario_text.specs.declared.event.Event.{Event};
ghost use Rattle.std.specs.Prelude.{List, Option, ℕ};
ghost use Rattle.unit_defs.specs.Ue.{UeNode};
ghost use Rattle.unit_defs.specs.Ways.{Input, Load, Message, Output, Pdu, Put, uplink};
ghost use Rattle.bearer_defs.specs.uplink_defs.Orders.{run};

/// Where a terminal shows a bearer's models, and what stands on its radio up is the two lists of the model, it does so after each step of
/// its own, whatever it is given: what is put comes to the list, and all of it is gone, where it leaves its radio. What is confirmed to it
/// is the oldest that was carried: so nothing of this is assumed.
pub fn terminals_keep_the_refinement()
    ensures { (reading : Reading) (event : Event) (s t : RunState) (ue : UeId) (bearer : BearerId)
        (b : Models) (refinement : IsAtTerminal reading ue bearer s b) (v : UeNode) (cause : RunCause)
        (input : Input Token Pdu) (outputs : List (Output (Message Token) Pdu))
        → IsUeStep reading event s t ue refinement.terminal v cause input outputs → HoldTheirOwn s
        → (to : Option ℕ)
        → IsAtTerminal reading ue bearer t
        (carried_out b (orders_by plain_way refinement.terminal b bearer to input))
        × AssumedOnRadio bearer b.up input }
{}

/// Where a unit takes what stands next on the radio up, a packet is the first of the model's list, and the order by which it is carried
/// keeps the refinement: so this isn't assumed either.
pub fn dus_keep_the_refinement()
    ensures { (reading : Reading) (event : Event) (s t : RunState) (ue : UeId) (bearer : BearerId)
        (b : Models) (refinement : IsAtTerminal reading ue bearer s b) (home : NodeId) (item : OnRadio)
        (outputs : List (Put (Message Token) (Written (Load Pdu)) (Written Pdu)))
        (units : Units (Message Token) Token)
        → Stands event s (by_air (up_key ue bearer) home item)
        → IsFrameStep reading s t ue bearer (by_air (up_key ue bearer) home item) outputs units
        → (x teid : ℕ)
        → StandsNext b.up item.content.says
        × IsAtTerminal reading ue bearer t
        (record b { up = run b.up (order_of x b.up teid (uplink item.content.says)) }) }
{}

/// Every other step of a unit keeps the refinement with the same models, where it puts nothing on this radio, takes nothing from it, and
/// isn't this terminal's, nor its release.
pub fn others_keep_the_refinement()
    ensures { (reading : Reading) (s t : RunState) (ue : UeId) (bearer : BearerId) (b : Models)
        (cause : RunCause)
        (outputs : List (Put (Message Token) (Written (Load Pdu)) (Written Pdu)))
        (units : Units (Message Token) Token)
        → IsAtTerminal reading ue bearer s b → Leaves (up_key ue bearer) cause
        → IsFrameStep reading s t ue bearer cause outputs units
        → IsAtTerminal reading ue bearer t b }
{}
