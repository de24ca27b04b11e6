//! A law of a terminal's own steps in a run, beside the models of one bearer. The function does nothing: its contract is the law.

ghost use Rattle.gnb_types.specs.declared.names.BearerId.{BearerId};
ghost use Rattle.gnb_types.specs.declared.names.SnBits.{SnBits};
ghost use Rattle.gnb_types.specs.declared.names.UeId.{UeId};
ghost use Rattle.law_terminals_are_isolated.specs.own_steps.Own.{IsActed};
ghost use Rattle.proof_bearer_refinement.specs.uplink_radio.Radio.{IsAtTerminal, IsUeStep, RunCause};
ghost use Rattle.proof_node_orders.specs.terminal_inputs.Inputs.{Orders, orders_by};
ghost use Rattle.proof_bearer_refinement.specs.ue_step.Assumed.{both, AssumedStill};
ghost use Rattle.bearer_defs.specs.chain_defs.Orders as down;
ghost use Rattle.bearer_defs.specs.uplink_defs.Orders as up;
ghost use Rattle.proof_bearer_refinement.specs.run_bearers.Bearers.{Numbering};
ghost use Rattle.proof_bearer_refinement.specs.runs.Steps.{Point, StaysInFrame};
ghost use Rattle.proof_bearer_refinement.specs.runs.Fair.{IsFair};
ghost use Rattle.message_types.specs.declared.rrc.Token.{Token};
ghost use Rattle.run_defs.specs.Runs.{plain_way, plain_world, Reading};
ghost use Rattle.run_defs.specs.States.{sn_of};
ghost use Rattle.run_defs.specs.Units.{with_ue};
ghost use Rattle.run_defs.specs.Written.{written_put};
ghost use Rattle.scenario_text.specs.declared.event.Event.{Event};
ghost use Rattle.std.specs.Prelude.{List, map, Option, ◌≡◌, ℕ};
ghost use Rattle.unit_defs.specs.Ue.{UeNode};
ghost use Rattle.unit_defs.specs.Ways.{Input, Message, Output, Pdu};

/// Where a terminal shows a bearer's models and its radio up is the model's, in a fair state, each step of its own is one of those that
/// `runs` takes: it leaves the bearer's contexts and tunnels, and is the orders of its input, each of which asks what it does; and it
/// is so afterwards. Owed is what stands first on the radio down, that a report says what was carried, and that an arrival may lead where
/// it leads; nothing of the radio up.
pub fn steps_of_a_terminal_are_its_orders()
    ensures { (reading : Reading) (n : Numbering) (ue : UeId) (bearer : BearerId) (sn : SnBits)
        (quota : ℕ) (p q : Point) (event : Event)
        (refinement : IsAtTerminal reading ue bearer p.state (both p)) (v : UeNode) (cause : RunCause)
        (input : Input Token Pdu) (outputs : List (Output (Message Token) Pdu)) (to : Option ℕ)
        → IsFair p.state
        → IsUeStep reading event p.state q.state ue refinement.terminal v cause input outputs
        → IsActed (plain_world reading) event p.state cause
        (map (written_put (sn_of p.state)) outputs) (with_ue p.state.units ue v)
        → AssumedStill refinement.terminal (both p) bearer to input
        → let orders : Orders = orders_by plain_way refinement.terminal (both p) bearer to input in
        q.down ≡ down.run p.down orders.down → q.up ≡ up.run p.up orders.up
        → StaysInFrame reading n ue bearer sn quota p q
        × IsAtTerminal reading ue bearer q.state (both q) }
{}
