//! Laws of the way of a bearer's packets down in a run, from the CU-UP that sends to a DU to the terminal's radio: each step of a run keeps it
//! as it is to be. Each function does nothing: its contract is the law.

ghost use Rattle.bearer_defs.specs.chain_defs.Orders.{run};
ghost use Rattle.gnb_types.specs.declared.names.BearerId.{BearerId};
ghost use Rattle.gnb_types.specs.declared.names.Gnb.{Gnb};
ghost use Rattle.gnb_types.specs.declared.names.SnBits.{SnBits};
ghost use Rattle.gnb_types.specs.declared.names.UeId.{UeId};
ghost use Rattle.law_handover_delivers.specs.assumed_runs.Assuming.{IsWellLinkedAt};
ghost use Rattle.law_handover_delivers.specs.core_path.Paths.{CameAbout, CoreOffers, CoreTakes};
ghost use Rattle.proof_bearer_refinement.specs.du_puts.Puts.{IsDuStep};
ghost use Rattle.proof_bearer_refinement.specs.downlink_radio.Down.{down_key, IsDown};
ghost use Rattle.proof_bearer_refinement.specs.downlink_radio.Received.{received_by, AssumedReceived};
ghost use Rattle.proof_run_steps.specs.radio_steps.Radios.{on_air};
ghost use Rattle.proof_run_steps.specs.teids.Given.{GiveOnce};
ghost use Rattle.proof_bearer_refinement.specs.uplink_radio.Radio.{IsAtTerminal, IsUeStep, RunCause};
ghost use Rattle.law_handover_delivers.specs.report_runs.Steps.{CuUpActs, ReportsAreTrueAt};
ghost use Rattle.proof_bearer_refinement.specs.run_bearers.Bearers.{Numbering};
ghost use Rattle.proof_bearer_refinement.specs.run_unit_inputs.Happenings.{DuRecord};
ghost use Rattle.law_terminals_are_isolated.specs.own_steps.Own.{IsActed};
ghost use Rattle.proof_bearer_refinement.specs.runs.Steps.{IsRefined, Point, StaysInFrame};
ghost use Rattle.proof_bearer_refinement.specs.runs.Fair.{IsFair};
ghost use Rattle.law_handover_delivers.specs.downlink_path_steps.Way.{IsOnDownlinkPath, AssumesFrame, AssumesSwitches};
ghost use Rattle.law_handover_delivers.specs.whole_runs.Whole.{both, CoreIsGiven, CuCpStep, Lands, Loses, OtherStep, SetsUp};
ghost use Rattle.message_types.specs.declared.rrc.Token.{Token};
ghost use Rattle.run_defs.specs.Runs.{plain_world, Reading};
ghost use Rattle.run_defs.specs.States.{sn_of};
ghost use Rattle.run_defs.specs.Units.{with_du, with_ue};
ghost use Rattle.run_defs.specs.Written.{written_put};
ghost use Rattle.scenario_text.specs.declared.event.Event.{Event};
ghost use Rattle.std.specs.Prelude.{List, map, Option, ◌≡◌, ℕ};
ghost use Rattle.unit_defs.specs.Ue.{UeNode};
ghost use Rattle.unit_defs.specs.Ways.{Input, Message, Output, Pdu};

/// A step of a CU-CP or of another terminal, what the core puts, the set-up of another terminal, and where messages or items are lost, leave
/// the way as it is to be: of these nothing is assumed.
pub fn others_keep_the_way()
    ensures cu_cp { (reading : Reading) (n : Numbering) (ue : UeId) (bearer : BearerId) (sn : SnBits)
        (quota : ℕ) (p q : Point) → IsFair p.state → GiveOnce p.state.units q.state.units
        → IsOnDownlinkPath n ue bearer p → CuCpStep reading n ue bearer sn quota p q
        → IsOnDownlinkPath n ue bearer q }
    ensures other { (reading : Reading) (n : Numbering) (ue : UeId) (bearer : BearerId) (sn : SnBits)
        (quota : ℕ) (p q : Point) → IsFair p.state → GiveOnce p.state.units q.state.units
        → IsOnDownlinkPath n ue bearer p → OtherStep reading n ue bearer sn quota p q
        → IsOnDownlinkPath n ue bearer q }
    ensures offer { (reading : Reading) (n : Numbering) (ue : UeId) (bearer : BearerId) (sn : SnBits)
        (quota : ℕ) (p q : Point) → IsFair p.state → GiveOnce p.state.units q.state.units
        → IsOnDownlinkPath n ue bearer p → CoreOffers reading n ue bearer sn quota p q
        → IsOnDownlinkPath n ue bearer q }
    ensures message { (reading : Reading) (n : Numbering) (ue : UeId) (bearer : BearerId) (sn : SnBits)
        (quota : ℕ) (p q : Point) → IsFair p.state → GiveOnce p.state.units q.state.units
        → IsOnDownlinkPath n ue bearer p → CoreTakes reading n ue bearer sn quota p q
        → IsOnDownlinkPath n ue bearer q }
    ensures octets { (reading : Reading) (n : Numbering) (ue : UeId) (bearer : BearerId) (sn : SnBits)
        (quota : ℕ) (p q : Point) → IsFair p.state → GiveOnce p.state.units q.state.units
        → IsOnDownlinkPath n ue bearer p → CoreIsGiven reading n ue bearer sn quota p q
        → IsOnDownlinkPath n ue bearer q }
    ensures set_up { (reading : Reading) (n : Numbering) (ue : UeId) (bearer : BearerId) (sn : SnBits)
        (quota : ℕ) (p q : Point) → IsFair p.state → GiveOnce p.state.units q.state.units
        → IsOnDownlinkPath n ue bearer p → SetsUp reading n ue bearer sn quota p q
        → IsFair q.state → IsOnDownlinkPath n ue bearer q }
    ensures lost { (reading : Reading) (n : Numbering) (ue : UeId) (bearer : BearerId) (sn : SnBits)
        (quota : ℕ) (p q : Point) → IsFair p.state → GiveOnce p.state.units q.state.units
        → IsOnDownlinkPath n ue bearer p → Loses reading n ue bearer sn quota p q
        → IsOnDownlinkPath n ue bearer q }
    ensures lands { (reading : Reading) (n : Numbering) (ue : UeId) (bearer : BearerId) (sn : SnBits)
        (quota : ℕ) (p q : Point) → IsFair p.state → GiveOnce p.state.units q.state.units
        → IsOnDownlinkPath n ue bearer p → Lands reading n ue bearer sn quota p q
        → IsOnDownlinkPath n ue bearer q }
{}

/// So does a step of a DU, whatever it is given: where it takes a frame for the bearer in the epoch in which the terminal's radio is
/// connected, a context sends there that was switched for this radio (`AssumesFrame`). A set-up, a modification or a release of its context
/// asks nothing: a tunnel that begins was not given before.
pub fn a_du_keeps_the_way()
    ensures { (reading : Reading) (n : Numbering) (ue : UeId) (bearer : BearerId) (p q : Point)
        → IsFair p.state → GiveOnce p.state.units q.state.units → IsOnDownlinkPath n ue bearer p
        → (gnb : Gnb) (number : ℕ) (event : Event) (cause : RunCause) (input : Input Token Pdu)
        (outputs : List (Output (Message Token) Pdu)) (left : DuRecord)
        → IsDuStep reading p.state q.state gnb number cause input outputs left
        → IsActed (plain_world reading) event p.state cause
        (map (written_put (sn_of p.state)) outputs) (with_du p.state.units gnb number left)
        → AssumesFrame n ue bearer p gnb number input → q.down ≡ p.down → IsOnDownlinkPath n ue bearer q }
{}

/// And a step of the terminal's own: it takes what waits on its radio, or comes on the air in its next epoch, for which no context was
/// switched yet.
pub fn the_terminal_keeps_the_way()
    ensures { (reading : Reading) (n : Numbering) (ue : UeId) (bearer : BearerId) (sn : SnBits)
        (quota : ℕ) (p q : Point) → IsFair p.state → GiveOnce p.state.units q.state.units
        → IsOnDownlinkPath n ue bearer p → IsRefined reading n ue bearer sn quota p
        → CameAbout sn quota p.down → (event : Event)
        (refinement : IsAtTerminal reading ue bearer p.state (both p)) (left : UeNode) (cause : RunCause)
        (input : Input Token Pdu) (outputs : List (Output (Message Token) Pdu)) (to : Option ℕ)
        → IsUeStep reading event p.state q.state ue refinement.terminal left cause input outputs
        → IsActed (plain_world reading) event p.state cause
        (map (written_put (sn_of p.state)) outputs) (with_ue p.state.units ue left)
        → AssumedReceived refinement.terminal (both p) bearer to input
        → q.down ≡ run p.down (received_by refinement.terminal (both p) bearer to input).down
        → StaysInFrame reading n ue bearer sn quota p q
        → IsAtTerminal reading ue bearer q.state (both q)
        → IsDown (on_air q.state (down_key ue bearer)) q.down → IsOnDownlinkPath n ue bearer q }
{}

/// And a step of a CU-UP, whatever it takes: its context goes on, or begins by a switch, which names a tunnel to which no other context
/// sends; and one for the present radio, a tunnel that its DU gave, on which nothing came yet (`AssumesSwitches`).
pub fn a_cu_up_keeps_the_way()
    ensures { (reading : Reading) (n : Numbering) (ue : UeId) (bearer : BearerId) (sn : SnBits)
        (quota : ℕ) (p q : Point) → IsFair p.state → IsFair q.state
        → GiveOnce p.state.units q.state.units → IsOnDownlinkPath n ue bearer p
        → IsRefined reading n ue bearer sn quota p → IsWellLinkedAt reading n ue bearer sn quota p
        → CameAbout sn quota p.down → ReportsAreTrueAt reading n ue bearer sn quota p
        → (a : CuUpActs reading n ue bearer sn quota p q)
        → AssumesSwitches n ue bearer p a.gnb a.number a.input a.beside.epoch
        → IsOnDownlinkPath n ue bearer q }
{}
