//! Laws of runs of which of a CU-UP's steps only what is assumed of control is asked, and of items what isn't shown yet. Each function does
//! nothing: its contract is the law.

ghost use Rattle.gnb_types.specs.declared.names.BearerId.{BearerId};
ghost use Rattle.gnb_types.specs.declared.names.SnBits.TheVariants.{Len12};
ghost use Rattle.gnb_types.specs.declared.names.SnBits.{SnBits};
ghost use Rattle.gnb_types.specs.declared.names.UeId.{UeId};
ghost use Rattle.law_handover_delivers.specs.initial_runs.First.{AreInitial, DeliverInOrder};
ghost use Rattle.proof_bearer_refinement.specs.initial.First.{start};
ghost use Rattle.law_handover_delivers.specs.unused_uplinks.Later as later;
ghost use Rattle.law_handover_delivers.specs.unused_uplinks.Later.{AreFresh};
ghost use Rattle.law_handover_delivers.specs.assumptions.WellLinked.{IsOld};
ghost use Rattle.law_handover_delivers.specs.assumed_runs.Assuming.{IsWellLinkedAt, NoneIsZero, Step, Steps};
ghost use Rattle.proof_bearer_refinement.specs.run_bearers.Bearers.{Numbering};
ghost use Rattle.proof_bearer_refinement.specs.runs.Steps.{IsRefined, Point};
ghost use Rattle.proof_bearer_refinement.specs.du_puts.Worked.{bearer, terminal};
ghost use Rattle.proof_bearer_refinement.specs.runs.Fair.{IsFair};
ghost use Rattle.run_defs.specs.Runs.{Reading};
ghost use Rattle.std.specs.Prelude.{ℕ};
ghost use Rattle.unit_defs.specs.CuUpRecords.{DownlinkTunnel};
ghost use Rattle.proof_run_steps.specs.teids.Given.{GiveOnce};

/// Where the bearer's contexts are well-linked, a step to a later state of the run, of which of a CU-UP's orders only what is assumed is
/// asked, is one that `unused_uplinks` takes, and they are well-linked then: a hop, once a freeze gave it, leads to the same other context,
/// by the same two tunnels, as no TEID and no context comes twice.
pub fn each_step_keeps_contexts_well_linked()
    ensures { (reading : Reading) (n : Numbering) (ue : UeId) (bearer : BearerId) (sn : SnBits)
        (quota : ℕ) (p q : Point) → NoneIsZero n
        → IsFair p.state → IsFair q.state → GiveOnce p.state.units q.state.units
        → IsRefined reading n ue bearer sn quota p → IsWellLinkedAt reading n ue bearer sn quota p
        → Step reading n ue bearer sn quota p q
        → later.Step reading n ue bearer sn quota p q × IsWellLinkedAt reading n ue bearer sn quota q }
{}

/// So over any steps of a run, one after another.
pub fn steps_ask_what_is_assumed()
    ensures { (reading : Reading) (n : Numbering) (ue : UeId) (bearer : BearerId) (sn : SnBits)
        (quota : ℕ) (p q : Point) → NoneIsZero n
        → IsRefined reading n ue bearer sn quota p → AreFresh n p.state p.up
        → IsWellLinkedAt reading n ue bearer sn quota p → Steps reading n ue bearer sn quota p q
        → later.Steps reading n ue bearer sn quota p q × IsWellLinkedAt reading n ue bearer sn quota q }
{}

/// From a state by which the initial models of a bearer, after the switch by which its context has its downlink, are refined, where the
/// instance of this context was given: over any steps of the run what is delivered, down and up, is a prefix of what was offered meanwhile,
/// each packet once, with COUNTs 0, 1, 2 and so on.
pub fn runs_deliver_after_the_first_switch()
    ensures { (reading : Reading) (n : Numbering) (ue : UeId) (bearer : BearerId) (sn : SnBits)
        (quota : ℕ) (p q : Point) (first teid : ℕ) (d : DownlinkTunnel) → NoneIsZero n
        → AreInitial first teid d p → IsRefined reading n ue bearer sn quota p
        → IsOld n ue bearer p.state.units first
        → Steps reading n ue bearer sn quota p q
        → DeliverInOrder reading n ue bearer sn quota p q }
{}

/// So from the first state of a run on, in which a terminal is set up without messages: its models are refined by it, and over any steps
/// from there its bearer delivers in order.
pub fn a_terminal_delivers_in_order()
    ensures { (reading : Reading) (n : Numbering) → NoneIsZero n
        → (teid : ℕ) × (d : DownlinkTunnel)
        × IsRefined reading n terminal bearer Len12 64 (start n teid d)
        × ((q : Point) → Steps reading n terminal bearer Len12 64 (start n teid d) q
        → DeliverInOrder reading n terminal bearer Len12 64 (start n teid d) q) }
{}
