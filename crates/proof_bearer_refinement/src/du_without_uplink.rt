//! A law of the steps of a DU by which nothing is carried up for a bearer. The function does nothing: its contract is the law.

ghost use Rattle.gnb_types.specs.declared.names.BearerId.{BearerId};
ghost use Rattle.gnb_types.specs.declared.names.Gnb.{Gnb};
ghost use Rattle.gnb_types.specs.declared.names.SnBits.{SnBits};
ghost use Rattle.gnb_types.specs.declared.names.UeId.{UeId};
ghost use Rattle.law_terminals_are_isolated.specs.own_steps.Own.{IsActed};
ghost use Rattle.proof_bearer_refinement.specs.du_puts.Puts.{IsDuStep, orders_up, puts_of};
ghost use Rattle.proof_bearer_refinement.specs.uplink_radio.Radio.{Leaves, RunCause, up_key};
ghost use Rattle.bearer_defs.specs.uplink_defs.Orders as up;
ghost use Rattle.proof_bearer_refinement.specs.run_bearers.Bearers.{Numbering};
ghost use Rattle.proof_bearer_refinement.specs.run_unit_inputs.Happenings.{DuRecord};
ghost use Rattle.proof_bearer_refinement.specs.runs.Steps.{DuActs, Point};
ghost use Rattle.proof_bearer_refinement.specs.runs.Fair.{IsFair};
ghost use Rattle.message_types.specs.declared.rrc.Token.{Token};
ghost use Rattle.run_defs.specs.Runs.{plain_world, Reading};
ghost use Rattle.run_defs.specs.States.{sn_of};
ghost use Rattle.run_defs.specs.Units.{with_du};
ghost use Rattle.run_defs.specs.Written.{written_put};
ghost use Rattle.scenario_text.specs.declared.event.Event.{Event};
ghost use Rattle.std.specs.Prelude.{List, map, ◌≡◌, ℕ};
ghost use Rattle.unit_defs.specs.Ways.{Input, Message, Output, Pdu};

/// Between two fair states, such as a run passes: a step of a DU, whatever it is given but a PDU of the bearer's radio up, is one that
/// `runs` takes, and assumes nothing: a tunnel of the bearer that it puts on is one of its uplinks, and its orders, End Markers, ask
/// nothing.
pub fn other_steps_of_a_du_assume_nothing()
    ensures { (reading : Reading) (n : Numbering) (ue : UeId) (bearer : BearerId) (sn : SnBits)
        (quota : ℕ) (p q : Point) (event : Event) (gnb : Gnb) (number : ℕ) (cause : RunCause)
        (input : Input Token Pdu) (outputs : List (Output (Message Token) Pdu)) (left : DuRecord)
        → IsFair p.state → IsFair q.state
        → IsActed (plain_world reading) event p.state cause
        (map (written_put (sn_of p.state)) outputs) (with_du p.state.units gnb number left)
        → IsDuStep reading p.state q.state gnb number cause input outputs left
        → Leaves (up_key ue bearer) cause → q.down ≡ p.down
        → q.up ≡ up.run p.up (orders_up n ue bearer p.state.units p.up
        (puts_of ue bearer p.state.units gnb number input))
        → DuActs reading n ue bearer sn quota p q }
{}
