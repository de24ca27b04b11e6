//! Laws of what is assumed of control of the orders that a CU-UP is asked for a bearer: with what is always so of the bearer's contexts it
//! is all that these orders ask. Each function does nothing: its contract is the law.

ghost use Rattle.gnb_types.specs.declared.names.BearerId.{BearerId};
ghost use Rattle.gnb_types.specs.declared.names.Gnb.{Gnb};
ghost use Rattle.gnb_types.specs.declared.names.NodeId.{NodeId};
ghost use Rattle.gnb_types.specs.declared.names.SnBits.{SnBits};
ghost use Rattle.gnb_types.specs.declared.names.UeId.{UeId};
ghost use Rattle.law_handover_delivers.specs.assumptions.Assumed.{AllAssume, final_asks, FreezeLeads};
ghost use Rattle.law_handover_delivers.specs.assumptions.WellLinked.{AreWellLinked};
ghost use Rattle.law_handover_delivers.specs.assumptions.Worked.{LeadsThere};
ghost use Rattle.proof_bearer_refinement.specs.cu_up_step.Worked.{frozen_run};
ghost use Rattle.proof_bearer_refinement.specs.refinement_facts.Asked.{AllAsk, AreSound, Refines, HopLeads, IsUpStep, RunCause};
ghost use Rattle.proof_bearer_refinement.specs.refinement_facts.Refinements.{RunState};
ghost use Rattle.bearer_defs.specs.chain_defs.Models as down_models;
ghost use Rattle.proof_cu_up_orders.specs.bearer_orders.Happenings.{Beside, Happening};
ghost use Rattle.bearer_defs.specs.uplink_defs.Models as up_models;
ghost use Rattle.law_tunnels_are_owned.specs.owner_facts.Owned.{AreOwned};
ghost use Rattle.proof_bearer_refinement.specs.run_bearers.Bearers.{contexts_of, Numbering};
ghost use Rattle.proof_bearer_refinement.specs.run_bearers.Things.{PlainUnits};
ghost use Rattle.law_tunnels_are_owned.specs.run_tunnels.Own.{TunnelsHoldTheirOwn};
ghost use Rattle.proof_bearer_refinement.specs.run_unit_inputs.Happenings.{CuUpRecord};
ghost use Rattle.proof_run_steps.specs.steps.Reached.{reached};
ghost use Rattle.message_types.specs.declared.rrc.Token.{Token};
ghost use Rattle.run_defs.specs.Runs.{plain_world, Reading};
ghost use Rattle.run_defs.specs.States.{new_state};
ghost use Rattle.std.specs.Prelude.{List, Some, ◌≡◌, ℕ};
ghost use Rattle.unit_defs.specs.Ways.{Input, Message, Output, Pdu};

/// Where the two TEIDs of a freeze are the forwarding tunnels of a context, the hop leads there: of all open tunnels of the bearer its two
/// ends are the two forwarding tunnels of that context.
pub fn a_freeze_leads_there()
    ensures { (n : Numbering) (ue : UeId) (bearer : BearerId) (units : PlainUnits) (to : ℕ)
        (peer : NodeId) (down up : ℕ)
        → AreOwned units → FreezeLeads n ue bearer units to peer down up
        → HopLeads n ue bearer units (Some (record { peer = peer; down = down; up = up })) to to }
{}

/// Of a step of a CU-UP in a run: where the bearer's contexts are well-linked, all that `proof_bearer_refinement::runs` asks of its orders
/// follows of what is assumed (`AllAssume`). The tests are the unit's own, an item that it takes is of its tunnel's kind, no counter is
/// spent, a hop goes on leading where its freeze said, to another context, and none leads to a context that is made.
pub fn what_is_assumed_is_asked()
    ensures { (reading : Reading) (n : Numbering) (ue : UeId) (bearer : BearerId) (sn : SnBits)
        (quota : ℕ) (s t : RunState) (gnb : Gnb) (number : ℕ) (cause : RunCause)
        (input : Input Token Pdu) (outputs : List (Output (Message Token) Pdu)) (v : CuUpRecord)
        (b : Beside) (d : down_models.Model) (u : up_models.Model)
        → IsUpStep reading s t gnb number cause input outputs v
        → AreSound s t → TunnelsHoldTheirOwn s → Refines n ue bearer sn quota s d u
        → AreWellLinked n ue bearer s.units d u (contexts_of n ue bearer s.units)
        → let hs : List (Happening Pdu) = final_asks n ue bearer s gnb number cause input b in
        AllAssume n ue bearer s.units sn quota d u (contexts_of n ue bearer s.units) hs
        → AllAsk n ue bearer s.units sn quota d u (contexts_of n ue bearer s.units) hs }
{}

/// There is a run with such a freeze: in a handover to the other gNB, once the source is frozen, the two TEIDs of its hop are the
/// forwarding tunnels of the target's context.
pub fn a_worked_freeze_leads_there()
    ensures { (reading : Reading) (n : Numbering)
        → LeadsThere n (reached (plain_world reading) frozen_run new_state) }
{}
