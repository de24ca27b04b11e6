//! Laws that say all that is assumed of the steps of a run, for one bearer. Each function does nothing: its contract is the law.
#![tactic(auto)]

ghost use Rattle.gnb_types.specs.declared.names.BearerId.{BearerId};
ghost use Rattle.gnb_types.specs.declared.names.Gnb.{Gnb};
ghost use Rattle.gnb_types.specs.declared.names.SnBits.{SnBits};
ghost use Rattle.gnb_types.specs.declared.names.UeId.{UeId};
ghost use Rattle.law_guards.specs.Guards.{OfCuUp, OfMessage};
ghost use Rattle.law_handover_delivers.specs.assumptions.Assumed.{final_asks};
ghost use Rattle.law_handover_delivers.specs.core_path.Paths.{Step};
ghost use Rattle.proof_bearer_refinement.specs.refinement_facts.Asked.{down_after, IsUpStep, RunCause, up_after};
ghost use Rattle.bearer_defs.specs.chain_defs.Orders as down;
ghost use Rattle.proof_cu_up_orders.specs.bearer_orders.Happenings.{Beside};
ghost use Rattle.proof_bearer_refinement.specs.run_bearers.Bearers.{contexts_of, Numbering};
ghost use Rattle.proof_bearer_refinement.specs.run_unit_inputs.Happenings.{CuUpRecord};
ghost use Rattle.proof_bearer_refinement.specs.runs.Steps.{Point};
ghost use Rattle.proof_bearer_refinement.specs.core_step.Core.{IsCoreStep, IsOffer, orders_offered, orders_told};
ghost use Rattle.message_types.specs.declared.rrc.Token.{Token};
ghost use Rattle.run_defs.specs.Runs.{Reading};
ghost use Rattle.transport_defs.specs.declared.ControlMessage.{ControlMessage};
ghost use Rattle.std.specs.Prelude.{List, ◌≡◌, ℕ};
ghost use Rattle.unit_defs.specs.Core.{CorePath, CoreRecord};
ghost use Rattle.unit_defs.specs.Ways.{Input, Message, Output, Pdu};

/// A step of a CU-UP or the core in a run is one of those of which `law_handover_delivers::core_path` speaks, where what `Guards` says of
/// it is so, and the models go on by its orders: nothing else is assumed.
pub fn nothing_else_is_assumed()
    ensures cu_up { (reading : Reading) (n : Numbering) (ue : UeId) (bearer : BearerId) (sn : SnBits)
        (quota : ℕ) (p q : Point) (gnb : Gnb) (number : ℕ) (cause : RunCause)
        (input : Input Token Pdu) (outputs : List (Output (Message Token) Pdu)) (left : CuUpRecord)
        (beside : Beside)
        → IsUpStep reading p.state q.state gnb number cause input outputs left
        → OfCuUp n ue bearer sn quota p gnb number cause input beside
        → q.down ≡ down_after n ue bearer p.state.units sn quota p.down
        (contexts_of n ue bearer p.state.units)
        (final_asks n ue bearer p.state gnb number cause input beside)
        → q.up ≡ up_after n ue bearer p.state.units sn quota p.up
        (contexts_of n ue bearer p.state.units)
        (final_asks n ue bearer p.state gnb number cause input beside)
        → Step reading n ue bearer sn quota p q }
    ensures offer { (reading : Reading) (n : Numbering) (ue : UeId) (bearer : BearerId) (sn : SnBits)
        (quota : ℕ) (p q : Point) (who : UeId) (which : BearerId) (packet : List ℕ)
        (path : CorePath)
        → IsOffer reading p.state q.state who which packet path
        → q.down ≡ down.run p.down (orders_offered ue bearer who which packet) → q.up ≡ p.up
        → Step reading n ue bearer sn quota p q }
    ensures message { (reading : Reading) (n : Numbering) (ue : UeId) (bearer : BearerId)
        (sn : SnBits) (quota : ℕ) (p q : Point) (number : ℕ) (control_message : ControlMessage (Message Token))
        (outputs : List (Output (Message Token) Pdu)) (core : CoreRecord (Message Token) Token)
        → IsCoreStep reading p.state q.state number control_message outputs core
        → OfMessage n ue bearer sn quota p control_message
        → q.down ≡ down.run p.down (orders_told n ue bearer p.state control_message) → q.up ≡ p.up
        → Step reading n ue bearer sn quota p q }
{}
