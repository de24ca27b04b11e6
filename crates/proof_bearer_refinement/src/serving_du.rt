//! A law of a DU that takes what stands next on a terminal's radio up in a run. The function does nothing: its contract is the law.

ghost use Rattle.gnb_types.specs.declared.names.BearerId.{BearerId};
ghost use Rattle.gnb_types.specs.declared.names.Gnb.{Gnb};
ghost use Rattle.gnb_types.specs.declared.names.NodeId.TheVariants.{Du};
ghost use Rattle.gnb_types.specs.declared.names.SnBits.{SnBits};
ghost use Rattle.gnb_types.specs.declared.names.UeId.{UeId};
ghost use Rattle.proof_bearer_refinement.specs.serving_du.Home.{ServingDuLeads};
ghost use Rattle.law_terminals_are_isolated.specs.own_steps.Own.{IsActed};
ghost use Rattle.proof_bearer_refinement.specs.du_puts.Puts.{IsDuStep, orders_up, puts_of};
ghost use Rattle.proof_bearer_refinement.specs.uplink_radio.Radio.{IsAtTerminal, OnRadio, up_key};
ghost use Rattle.proof_run_steps.specs.steps.Causes.{by_air};
ghost use Rattle.proof_bearer_refinement.specs.ue_step.Assumed.{both};
ghost use Rattle.bearer_defs.specs.uplink_defs.Orders as up;
ghost use Rattle.proof_bearer_refinement.specs.run_bearers.Bearers.{Numbering};
ghost use Rattle.proof_bearer_refinement.specs.run_unit_inputs.Happenings.{DuRecord};
ghost use Rattle.proof_bearer_refinement.specs.runs.Steps.{DuActs, IsRefined, Point};
ghost use Rattle.proof_bearer_refinement.specs.runs.Fair.{IsFair};
ghost use Rattle.message_types.specs.declared.rrc.Token.{Token};
ghost use Rattle.run_defs.specs.Runs.{plain_world, Reading};
ghost use Rattle.run_defs.specs.States.{sn_of};
ghost use Rattle.run_defs.specs.Units.{with_du};
ghost use Rattle.run_defs.specs.Written.{written_put};
ghost use Rattle.scenario_text.specs.declared.event.Event.{Event};
ghost use Rattle.std.specs.Prelude.{List, map, ◌≡◌, ℕ};
ghost use Rattle.unit_defs.specs.Ways.{Input, Message, Output, Pdu};

/// Where the models are refined by a fair state of a run, the terminal shows them, and its radio up is the model's, a step by which a DU
/// takes what stands next on that radio is one of those that `runs` takes, and the radio is the model's afterwards. Owed is where the DU
/// puts it (`ServingDuLeads`), and nothing else: that a packet is the first of the model's list, and that its tunnel is open, is shown.
pub fn a_home_carries_what_stands_next()
    ensures { (reading : Reading) (n : Numbering) (ue : UeId) (bearer : BearerId) (sn : SnBits)
        (quota : ℕ) (p q : Point) (event : Event)
        (refinement : IsAtTerminal reading ue bearer p.state (both p)) (gnb : Gnb) (number : ℕ)
        (item : OnRadio) (input : Input Token Pdu) (outputs : List (Output (Message Token) Pdu))
        (left : DuRecord)
        → IsFair p.state → IsRefined reading n ue bearer sn quota p
        → IsActed (plain_world reading) event p.state
        (by_air (up_key ue bearer) (Du gnb number) item)
        (map (written_put (sn_of p.state)) outputs) (with_du p.state.units gnb number left)
        → IsDuStep reading p.state q.state gnb number
        (by_air (up_key ue bearer) (Du gnb number) item) input outputs left
        → ServingDuLeads n ue bearer p gnb number
        → q.down ≡ p.down
        → q.up ≡ up.run p.up (orders_up n ue bearer p.state.units p.up
        (puts_of ue bearer p.state.units gnb number input))
        → DuActs reading n ue bearer sn quota p q
        × IsAtTerminal reading ue bearer q.state (both q) }
{}
