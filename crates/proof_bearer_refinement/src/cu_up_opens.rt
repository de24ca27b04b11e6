//! Laws of a step of a CU-UP in a run: what it opens for a bearer stands empty, and the run's tunnels stay the lists of the bearer's
//! models. Each function does nothing: its contract is the law.

ghost use Rattle.gnb_types.specs.declared.keys.TunnelEnd.{TunnelEnd};
ghost use Rattle.gnb_types.specs.declared.names.BearerId.{BearerId};
ghost use Rattle.gnb_types.specs.declared.names.Gnb.{Gnb};
ghost use Rattle.gnb_types.specs.declared.names.SnBits.{SnBits};
ghost use Rattle.gnb_types.specs.declared.names.UeId.{UeId};
ghost use Rattle.proof_bearer_refinement.specs.refinement_facts.Asked.{AllAsk, AreSound, Refines, down_after, IsUpStep, RunCause, step_asks, up_after};
ghost use Rattle.proof_bearer_refinement.specs.refinement_facts.Refinements.{Owned, owned_at, RunItem, RunState};
ghost use Rattle.bearer_defs.specs.chain_defs.Models as down_models;
ghost use Rattle.proof_cu_up_orders.specs.bearer_orders.Happenings.{Beside, Contexts, Happening};
ghost use Rattle.bearer_defs.specs.uplink_defs.Models as up_models;
ghost use Rattle.proof_bearer_refinement.specs.run_bearers.Bearers.{contexts_of, Numbering};
ghost use Rattle.proof_bearer_refinement.specs.run_unit_inputs.Happenings.{CuUpRecord};
ghost use Rattle.proof_run_steps.specs.tunnel_steps.Standing.{standing};
ghost use Rattle.run_defs.specs.Runs.{Reading};
ghost use Rattle.proof_bearer_refinement.specs.cu_up_opens.Fresh.{UplinksAreFresh};
ghost use Rattle.message_types.specs.declared.rrc.Token.{Token};
ghost use Rattle.std.specs.Prelude.{[], List, None, Some, ◌≡◌, ℕ};
ghost use Rattle.unit_defs.specs.Ways.{Input, Message, Output, Pdu};

/// A tunnel that is a bearer's before a step of a CU-UP and after it is of the same context and kind; and on one that the step opens for
/// the bearer nothing stands after it.
pub fn tunnels_that_open_stand_empty()
    ensures stay { (reading : Reading) (n : Numbering) (ue : UeId) (bearer : BearerId)
        (s t : RunState) (gnb : Gnb) (number : ℕ) (cause : RunCause) (input : Input Token Pdu)
        (outputs : List (Output (Message Token) Pdu)) (v : CuUpRecord)
        → IsUpStep reading s t gnb number cause input outputs v → AreSound s t
        → (end : TunnelEnd) (o w : Owned) → owned_at n ue bearer s.units end ≡ Some o
        → owned_at n ue bearer t.units end ≡ Some w → o ≡ w }
    ensures opened { (reading : Reading) (n : Numbering) (ue : UeId) (bearer : BearerId)
        (s t : RunState) (gnb : Gnb) (number : ℕ) (cause : RunCause) (input : Input Token Pdu)
        (outputs : List (Output (Message Token) Pdu)) (v : CuUpRecord)
        → IsUpStep reading s t gnb number cause input outputs v → AreSound s t
        → (end : TunnelEnd) (o : Owned) (items : List RunItem)
        → owned_at n ue bearer s.units end ≡ None → owned_at n ue bearer t.units end ≡ Some o
        → standing t end ≡ Some items → items ≡ [] }
{}

/// So where the models have the contexts of the CU-UPs, and their lists are the run's tunnels, they do so after the step's orders, which
/// ask what they do. Of an uplink whose TEID was not given before the model has nothing.
pub fn a_step_of_a_cu_up_keeps_the_refinement()
    ensures { (reading : Reading) (n : Numbering) (ue : UeId) (bearer : BearerId) (sn : SnBits)
        (quota : ℕ) (s t : RunState) (gnb : Gnb) (number : ℕ) (cause : RunCause)
        (input : Input Token Pdu) (outputs : List (Output (Message Token) Pdu)) (v : CuUpRecord)
        (b : Beside) (d : down_models.Model) (u : up_models.Model)
        → IsUpStep reading s t gnb number cause input outputs v → AreSound s t
        → Refines n ue bearer sn quota s d u → UplinksAreFresh n ue bearer s gnb number u
        → let cs : Contexts = contexts_of n ue bearer s.units in
        let hs : List (Happening Pdu) = step_asks n ue bearer s gnb number cause input b in
        AllAsk n ue bearer s.units sn quota d u cs hs
        → Refines n ue bearer sn quota t (down_after n ue bearer s.units sn quota d cs hs)
        (up_after n ue bearer s.units sn quota u cs hs) }
{}
