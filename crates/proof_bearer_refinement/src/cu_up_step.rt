//! Laws of the tunnels of a run and the lists of a bearer's models: they are the same, step by step. Each function does nothing: its
//! contract is the law.

ghost use Rattle.bearer_defs.specs.chain_defs.Orders as down;
ghost use Rattle.bearer_defs.specs.chain_defs.Models as down_models;
ghost use Rattle.gnb_types.specs.declared.keys.TunnelEnd.{TunnelEnd};
ghost use Rattle.gnb_types.specs.declared.names.BearerId.{BearerId};
ghost use Rattle.gnb_types.specs.declared.names.Gnb.{Gnb};
ghost use Rattle.gnb_types.specs.declared.names.SnBits.{SnBits};
ghost use Rattle.gnb_types.specs.declared.names.UeId.{UeId};
ghost use Rattle.proof_cu_up_orders.specs.bearer_orders.Down as downs;
ghost use Rattle.proof_cu_up_orders.specs.bearer_orders.Happenings.{Beside, Contexts, Happening};
ghost use Rattle.proof_cu_up_orders.specs.bearer_orders.Up as ups;
ghost use Rattle.proof_bearer_refinement.specs.run_bearers.Bearers.{contexts_of, Numbering};
ghost use Rattle.proof_bearer_refinement.specs.run_bearers.Things.{PlainUnits};
ghost use Rattle.proof_bearer_refinement.specs.run_unit_inputs.Happenings.{CuUpRecord};
ghost use Rattle.proof_bearer_refinement.specs.cu_up_step.Worked.{frozen_down, frozen_run, frozen_up, lists_of_models, lists_of_run, passed_down, passed_down_orders, passed_up, passed_up_orders};
ghost use Rattle.proof_bearer_refinement.specs.refinement_facts.Asked.{AllAsk, AreSound, Refines, down_after, IsUpStep, RunCause, step_asks, up_after};
ghost use Rattle.proof_bearer_refinement.specs.refinement_facts.Refinements.{IsMirror, Owned, owned_at, RunItem, RunState};
ghost use Rattle.proof_run_steps.specs.tunnel_steps.Standing.{standing};
ghost use Rattle.message_types.specs.declared.rrc.Token.{Token};
ghost use Rattle.run_defs.specs.Runs.{plain_way, Reading};
ghost use Rattle.std.specs.Prelude.{[], ◌∷◌, List, Some, ◌≡◌, ℕ};
ghost use Rattle.unit_defs.specs.Ways.{Input, Message, Output, Pdu};
ghost use Rattle.bearer_defs.specs.uplink_defs.Orders as up;
ghost use Rattle.bearer_defs.specs.uplink_defs.Models as up_models;

/// Where the models have the contexts of the CU-UPs, and their lists are the run's tunnels, an item that a step of a CU-UP takes stands
/// first in its list, down and up. So all that is asked of each order of the step is so where the rest of it is: what the unit tests,
/// and what is assumed of control.
pub fn oldest_items_stand_first()
    ensures { (reading : Reading) (n : Numbering) (ue : UeId) (bearer : BearerId) (sn : SnBits)
        (quota : ℕ) (s t : RunState) (gnb : Gnb) (number : ℕ) (cause : RunCause)
        (input : Input Token Pdu) (outputs : List (Output (Message Token) Pdu)) (v : CuUpRecord)
        (d : down_models.Model) (u : up_models.Model) (b : Beside)
        → IsUpStep reading s t gnb number cause input outputs v → AreSound s t
        → Refines n ue bearer sn quota s d u
        → let cs : Contexts = contexts_of n ue bearer s.units in
        let hs : List (Happening Pdu) = step_asks n ue bearer s gnb number cause input b in
        AllAsk n ue bearer s.units sn quota d u cs hs
        → downs.AllAsk plain_way ue bearer sn quota d cs hs × ups.AllAsk plain_way ue bearer u cs hs }
{}

/// And on each tunnel of the bearer that is open before the step and after it stands then what the list has after its orders: what it
/// takes is gone from both, and what it puts has come to both, on a forwarding tunnel where its hop leads, and nowhere else.
pub fn tunnels_stay_the_lists()
    ensures { (reading : Reading) (n : Numbering) (ue : UeId) (bearer : BearerId) (sn : SnBits)
        (quota : ℕ) (s t : RunState) (gnb : Gnb) (number : ℕ) (cause : RunCause)
        (input : Input Token Pdu) (outputs : List (Output (Message Token) Pdu)) (v : CuUpRecord)
        (d : down_models.Model) (u : up_models.Model) (b : Beside)
        → IsUpStep reading s t gnb number cause input outputs v → AreSound s t
        → Refines n ue bearer sn quota s d u
        → let cs : Contexts = contexts_of n ue bearer s.units in
        let hs : List (Happening Pdu) = step_asks n ue bearer s gnb number cause input b in
        AllAsk n ue bearer s.units sn quota d u cs hs
        → (end : TunnelEnd) (o : Owned) (items : List RunItem)
        → owned_at n ue bearer s.units end ≡ Some o → owned_at n ue bearer t.units end ≡ Some o
        → standing t end ≡ Some items
        → IsMirror o.kind
        ((down_after n ue bearer s.units sn quota d cs hs).members o.context)
        ((up_after n ue bearer s.units sn quota u cs hs).members o.context) end.teid items }
{}

/// The models are then what these orders make of them, one after another.
pub fn the_models_run_the_orders()
    ensures { (n : Numbering) (ue : UeId) (bearer : BearerId) (units : PlainUnits) (sn : SnBits)
        (quota : ℕ) (d : down_models.Model) (u : up_models.Model) (cs : Contexts)
        (hs : List (Happening Pdu))
        → (down_after n ue bearer units sn quota d cs hs
        ≡ down.run d (downs.all_orders plain_way ue bearer sn quota cs hs))
        × (up_after n ue bearer units sn quota u cs hs
        ≡ up.run u (ups.all_orders plain_way ue bearer cs hs)) }
{}

/// There is a run with a packet on a tunnel in each direction when the source of a handover is frozen, and a list of orders of each
/// model: what stands on the run's tunnels is what the models' lists have then, once the source has taken the packet of N3, which goes on
/// to the target, and once it has taken that of its uplink, which goes on too.
pub fn a_worked_run_is_its_orders()
    ensures runs { (reading : Reading)
        → (lists_of_run reading frozen_run ≡ lists_of_models frozen_down frozen_up)
        × (lists_of_run reading passed_down ≡ lists_of_models passed_down_orders frozen_up)
        × (lists_of_run reading passed_up ≡ lists_of_models passed_down_orders passed_up_orders) }
    ensures shown { lists_of_models passed_down_orders passed_up_orders
        ≡ Some (record {
          path = [];
          forwarded_down = down_models.fresh (7 ∷ []) ∷ [];
          uplink = [];
          forwarded_up = up_models.numbered 0 (8 ∷ []) ∷ [];
        }) }
{}
