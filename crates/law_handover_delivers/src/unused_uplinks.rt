//! Laws of runs in which each state comes after the one before: on uplinks whose TEIDs were not given yet a bearer's model has nothing, so
//! that no step asks for it. Each function does nothing: its contract is the law.

ghost use Rattle.gnb_types.specs.declared.names.BearerId.{BearerId};
ghost use Rattle.gnb_types.specs.declared.names.SnBits.TheVariants.{Len12};
ghost use Rattle.gnb_types.specs.declared.names.SnBits.{SnBits};
ghost use Rattle.gnb_types.specs.declared.names.UeId.{UeId};
ghost use Rattle.law_handover_delivers.specs.initial_runs.First.{AreInitial, DeliverInOrder};
ghost use Rattle.proof_bearer_refinement.specs.initial.First.{start};
ghost use Rattle.law_handover_delivers.specs.unused_uplinks.Later.{AreFresh, Step, Steps};
ghost use Rattle.proof_bearer_refinement.specs.refinement_facts.Refinements.{RunState};
ghost use Rattle.bearer_defs.specs.uplink_defs.Models as up_models;
ghost use Rattle.proof_bearer_refinement.specs.run_bearers.Bearers.{Numbering};
ghost use Rattle.proof_bearer_refinement.specs.runs.Steps as refined;
ghost use Rattle.proof_bearer_refinement.specs.runs.Steps.{IsRefined, Point};
ghost use Rattle.proof_bearer_refinement.specs.du_puts.Worked.{bearer, terminal};
ghost use Rattle.proof_bearer_refinement.specs.runs.Fair.{IsFair};
ghost use Rattle.run_defs.specs.Runs.{Reading};
ghost use Rattle.std.specs.Prelude.{◌≡◌, ℕ};
ghost use Rattle.unit_defs.specs.CuUpRecords.{DownlinkTunnel};
ghost use Rattle.proof_run_steps.specs.teids.Given.{GiveOnce};

/// A bearer's models at their start have nothing on uplinks. And where in a fair state the model has nothing on uplinks whose TEIDs were
/// not given yet, a step to a later state of the run is one that `proof_bearer_refinement::runs` takes, and it is so then: each TEID is
/// given once, a CU-UP puts nothing on its uplinks, and a DU puts on open ones.
pub fn each_step_keeps_uplinks_fresh()
    ensures first { (n : Numbering) (s : RunState) (u : up_models.Model) (first teid : ℕ)
        → u ≡ up_models.initial first teid → AreFresh n s u }
    ensures goes_on { (reading : Reading) (n : Numbering) (ue : UeId) (bearer : BearerId) (sn : SnBits)
        (quota : ℕ) (p q : Point)
        → IsFair p.state → IsFair q.state → GiveOnce p.state.units q.state.units
        → IsRefined reading n ue bearer sn quota p → AreFresh n p.state p.up
        → Step reading n ue bearer sn quota p q
        → refined.Step reading n ue bearer sn quota p q × AreFresh n q.state q.up }
{}

/// So any steps of a run, one after another, are steps of `proof_bearer_refinement::runs`, and of uplinks that were not given nothing is
/// assumed of them.
pub fn steps_assume_no_fresh_uplinks()
    ensures { (reading : Reading) (n : Numbering) (ue : UeId) (bearer : BearerId) (sn : SnBits)
        (quota : ℕ) (p q : Point)
        → IsRefined reading n ue bearer sn quota p → AreFresh n p.state p.up
        → Steps reading n ue bearer sn quota p q
        → refined.Steps reading n ue bearer sn quota p q × AreFresh n q.state q.up }
{}

/// From a state by which the initial models of a bearer, after the switch by which its context has its downlink, are refined: over any
/// steps of the run what is delivered, down and up, is a prefix of what was offered meanwhile, each packet once, with COUNTs 0, 1, 2 and so
/// on.
pub fn runs_deliver_after_the_first_switch()
    ensures { (reading : Reading) (n : Numbering) (ue : UeId) (bearer : BearerId) (sn : SnBits)
        (quota : ℕ) (p q : Point) (first teid : ℕ) (d : DownlinkTunnel)
        → AreInitial first teid d p → IsRefined reading n ue bearer sn quota p
        → Steps reading n ue bearer sn quota p q
        → DeliverInOrder reading n ue bearer sn quota p q }
{}

/// So from the first state of a run on, in which a terminal is set up without messages: its models are refined by it, and over any steps
/// from there its bearer delivers in order.
pub fn a_terminal_delivers_in_order()
    ensures { (reading : Reading) (n : Numbering)
        → (teid : ℕ) × (d : DownlinkTunnel)
        × IsRefined reading n terminal bearer Len12 64 (start n teid d)
        × ((q : Point) → Steps reading n terminal bearer Len12 64 (start n teid d) q
        → DeliverInOrder reading n terminal bearer Len12 64 (start n teid d) q) }
{}
