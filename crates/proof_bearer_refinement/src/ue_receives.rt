//! A law of a terminal's own steps in a run, beside the models of one bearer, where frames of F1-U may have been lost. The function does
//! nothing: its contract is the law.

ghost use Rattle.gnb_types.specs.declared.names.BearerId.{BearerId};
ghost use Rattle.gnb_types.specs.declared.names.SnBits.{SnBits};
ghost use Rattle.gnb_types.specs.declared.names.UeId.{UeId};
ghost use Rattle.proof_bearer_refinement.specs.downlink_radio.Down.{down_key, IsDown};
ghost use Rattle.proof_bearer_refinement.specs.downlink_radio.Received.{received_by, IsKept, AssumedReceived, AssumedRest};
ghost use Rattle.proof_run_steps.specs.radio_steps.Radios.{on_air};
ghost use Rattle.law_terminals_are_isolated.specs.own_steps.Own.{IsActed};
ghost use Rattle.proof_bearer_refinement.specs.uplink_radio.Radio.{IsAtTerminal, IsUeStep, RunCause};
ghost use Rattle.proof_node_orders.specs.terminal_inputs.Inputs.{Orders};
ghost use Rattle.proof_bearer_refinement.specs.ue_step.Assumed.{both, AssumedStill};
ghost use Rattle.bearer_defs.specs.chain_defs.Orders as down;
ghost use Rattle.bearer_defs.specs.uplink_defs.Orders as up;
ghost use Rattle.proof_bearer_refinement.specs.run_bearers.Bearers.{Numbering};
ghost use Rattle.proof_bearer_refinement.specs.runs.Steps.{Point, StaysInFrame};
ghost use Rattle.proof_bearer_refinement.specs.runs.Fair.{IsFair};
ghost use Rattle.message_types.specs.declared.rrc.Token.{Token};
ghost use Rattle.run_defs.specs.Runs.{plain_world, Reading};
ghost use Rattle.run_defs.specs.States.{sn_of};
ghost use Rattle.run_defs.specs.Units.{with_ue};
ghost use Rattle.run_defs.specs.Written.{written_put};
ghost use Rattle.scenario_text.specs.declared.event.Event.{Event};
ghost use Rattle.std.specs.Prelude.{List, map, Option, ◌≡◌, ◌<◌, ℕ};
ghost use Rattle.unit_defs.specs.Ue.{UeNode};
ghost use Rattle.unit_defs.specs.Ways.{Input, Message, Output, Pdu};

/// Where a terminal shows a bearer's models and its radio up is the model's, in a fair state, and the model down came there by kept orders,
/// each step of the terminal's own is one of those that `runs` takes, by the orders of its input; and it is so afterwards. Owed of a
/// packet that it takes is that none before it is missing, and that it was put for the present radio or received before: others may stand
/// before it on the model's radio, those that were lost on F1-U. That it is the first there, as `ue_step` asks, is more. And where
/// what waits on its radio down was put so and has no gap, nothing is assumed of a packet, and it goes on so.
pub fn steps_of_a_terminal_assume_less()
    ensures steps { (reading : Reading) (n : Numbering) (ue : UeId) (bearer : BearerId) (sn : SnBits)
        (quota : ℕ) (p q : Point) (event : Event)
        (refinement : IsAtTerminal reading ue bearer p.state (both p)) (v : UeNode) (cause : RunCause)
        (input : Input Token Pdu) (outputs : List (Output (Message Token) Pdu)) (to : Option ℕ)
        → IsFair p.state
        → IsUeStep reading event p.state q.state ue refinement.terminal v cause input outputs
        → IsActed (plain_world reading) event p.state cause
        (map (written_put (sn_of p.state)) outputs) (with_ue p.state.units ue v)
        → IsKept sn quota p.down → AssumedReceived refinement.terminal (both p) bearer to input
        → let orders : Orders = received_by refinement.terminal (both p) bearer to input in
        q.down ≡ down.run p.down orders.down → q.up ≡ up.run p.up orders.up
        → StaysInFrame reading n ue bearer sn quota p q
        × IsAtTerminal reading ue bearer q.state (both q) }
    ensures less { (sn : SnBits) (quota : ℕ) (u : UeNode) (p : Point) (bearer : BearerId)
        (to : Option ℕ) (input : Input Token Pdu) → IsKept sn quota p.down
        → AssumedStill u (both p) bearer to input → AssumedReceived u (both p) bearer to input }
    ensures first { (reading : Reading) (n : Numbering) (ue : UeId) (bearer : BearerId) (sn : SnBits)
        (quota : ℕ) (p q : Point) (event : Event)
        (refinement : IsAtTerminal reading ue bearer p.state (both p)) (v : UeNode) (cause : RunCause)
        (input : Input Token Pdu) (outputs : List (Output (Message Token) Pdu)) (to : Option ℕ)
        → IsFair p.state
        → IsUeStep reading event p.state q.state ue refinement.terminal v cause input outputs
        → IsActed (plain_world reading) event p.state cause
        (map (written_put (sn_of p.state)) outputs) (with_ue p.state.units ue v)
        → IsKept sn quota p.down → IsDown (on_air p.state (down_key ue bearer)) p.down
        → 0 < refinement.terminal.plan.quota → AssumedRest refinement.terminal (both p) bearer to input
        → let orders : Orders = received_by refinement.terminal (both p) bearer to input in
        q.down ≡ down.run p.down orders.down → q.up ≡ up.run p.up orders.up
        → StaysInFrame reading n ue bearer sn quota p q
        × IsAtTerminal reading ue bearer q.state (both q)
        × IsDown (on_air q.state (down_key ue bearer)) q.down }
{}
