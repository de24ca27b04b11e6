//! Laws of runs from where a terminal is set up without messages on. Each function does nothing: its contract is the law.

ghost use Rattle.gnb_types.specs.declared.names.BearerId.{BearerId};
ghost use Rattle.gnb_types.specs.declared.names.SnBits.TheVariants.{Len12};
ghost use Rattle.gnb_types.specs.declared.names.SnBits.{SnBits};
ghost use Rattle.gnb_types.specs.declared.names.UeId.{UeId};
ghost use Rattle.law_handover_delivers.specs.initial_runs.First.{AreInitial, DeliverInOrder};
ghost use Rattle.proof_bearer_refinement.specs.initial.First.{start};
ghost use Rattle.proof_bearer_refinement.specs.run_bearers.Bearers.{Numbering};
ghost use Rattle.proof_bearer_refinement.specs.runs.Steps.{IsRefined, Point, Steps};
ghost use Rattle.proof_bearer_refinement.specs.du_puts.Worked.{bearer, terminal};
ghost use Rattle.run_defs.specs.Runs.{Reading};
ghost use Rattle.std.specs.Prelude.{ℕ};
ghost use Rattle.unit_defs.specs.CuUpRecords.{DownlinkTunnel};

/// From a state by which the initial models of a bearer, after the switch by which its context has its downlink, are refined: over any
/// steps of the run what is delivered, down and up, is a prefix of what was offered meanwhile, each packet once, with COUNTs 0, 1, 2 and so
/// on.
pub fn runs_deliver_after_the_first_switch()
    ensures { (reading : Reading) (n : Numbering) (ue : UeId) (bearer : BearerId) (sn : SnBits)
        (quota : ℕ) (p q : Point) (first teid : ℕ) (d : DownlinkTunnel)
        → AreInitial first teid d p → IsRefined reading n ue bearer sn quota p
        → Steps reading n ue bearer sn quota p q
        → DeliverInOrder reading n ue bearer sn quota p q }
{}

/// So from the first state of a run on, in which a terminal is set up without messages: its models are refined by it, and over any steps
/// from there its bearer delivers in order.
pub fn a_terminal_delivers_in_order()
    ensures { (reading : Reading) (n : Numbering)
        → (teid : ℕ) × (d : DownlinkTunnel)
        × IsRefined reading n terminal bearer Len12 64 (start n teid d)
        × ((q : Point) → Steps reading n terminal bearer Len12 64 (start n teid d) q
        → DeliverInOrder reading n terminal bearer Len12 64 (start n teid d) q) }
{}
