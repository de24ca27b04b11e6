//! Laws of runs of which nothing is asked but what is assumed, told apart by what makes each step. Each function does nothing: its contract
//! is the law.
//!
//! Steps are told apart as `Made` of `proof_run_steps::steps` does; that each step of a run is one of these isn't shown. Assumed are, of a
//! CU-UP, assumptions on control (`AllAssumeStill`); of a DU that takes what stands next on the terminal's radio up, where it puts it
//! (`ServingDuLeads`); of a path switch, what it names and when it comes; of the terminal, what `proof_bearer_refinement::ue_receives` asks
//! (`AssumedReceived`), and that it has room for a packet; of another terminal, that its step is beside this one's (`IsFrameStep`), as what
//! a terminal puts is its own (`law_terminals_are_isolated::own_events`). Of all else nothing is: that what a step is given stands there,
//! and that a unit answers so, is so of each step of a run. The terminal's attach and its release are no steps here.

ghost use Rattle.gnb_types.specs.declared.names.BearerId.{BearerId};
ghost use Rattle.gnb_types.specs.declared.names.SnBits.TheVariants.{Len12};
ghost use Rattle.gnb_types.specs.declared.names.SnBits.{SnBits};
ghost use Rattle.gnb_types.specs.declared.names.UeId.{UeId};
ghost use Rattle.proof_bearer_refinement.specs.uplink_radio.Radio.{IsAtTerminal};
ghost use Rattle.proof_bearer_refinement.specs.run_bearers.Bearers.{Numbering};
ghost use Rattle.law_handover_delivers.specs.report_runs.Steps as reports;
ghost use Rattle.law_handover_delivers.specs.report_runs.Steps.{IsKnownAt, ReportsAreTrueAt};
ghost use Rattle.law_handover_delivers.specs.core_path.Paths.{LeadsAt};
ghost use Rattle.law_handover_delivers.specs.assumed_runs.Assuming.{NoneIsZero};
ghost use Rattle.law_handover_delivers.specs.initial_runs.First.{AreInitial, DeliverInOrder};
ghost use Rattle.proof_bearer_refinement.specs.initial.First.{start};
ghost use Rattle.proof_bearer_refinement.specs.runs.Steps.{IsRefined, Point};
ghost use Rattle.proof_bearer_refinement.specs.du_puts.Worked.{bearer, terminal};
ghost use Rattle.proof_bearer_refinement.specs.runs.Fair.{IsFair};
ghost use Rattle.law_handover_delivers.specs.assumptions.WellLinked.{IsOld};
ghost use Rattle.law_handover_delivers.specs.whole_runs.Whole.{both, IsWhole, Step, Steps};
ghost use Rattle.run_defs.specs.Runs.{Reading};
ghost use Rattle.std.specs.Prelude.{ℕ};
ghost use Rattle.unit_defs.specs.CuUpRecords.{DownlinkTunnel};
ghost use Rattle.proof_run_steps.specs.teids.Given.{GiveOnce};

/// Where the models are refined by a state of a run, and its terminal shows them, with all that laws of runs carry beside, each step is one
/// of `report_runs`, and all is so then.
pub fn each_step_keeps_all()
    ensures { (reading : Reading) (n : Numbering) (ue : UeId) (bearer : BearerId) (sn : SnBits)
        (quota : ℕ) (p q : Point) → NoneIsZero n
        → IsFair p.state → IsFair q.state → GiveOnce p.state.units q.state.units
        → IsWhole reading n ue bearer sn quota p → Step reading n ue bearer sn quota p q
        → reports.Step reading n ue bearer sn quota p q × IsWhole reading n ue bearer sn quota q }
{}

/// So over any steps of a run, one after another.
pub fn steps_keep_all()
    ensures { (reading : Reading) (n : Numbering) (ue : UeId) (bearer : BearerId) (sn : SnBits)
        (quota : ℕ) (p q : Point) → NoneIsZero n
        → IsWhole reading n ue bearer sn quota p → Steps reading n ue bearer sn quota p q
        → reports.Steps reading n ue bearer sn quota p q × IsWhole reading n ue bearer sn quota q }
{}

/// From a state by which the initial models of a bearer, after the switch by which its context has its downlink, are refined, and in which
/// all else that is carried is so: over any steps of the run what is delivered, down and up, is a prefix of what was offered meanwhile,
/// each packet once, with COUNTs 0, 1, 2 and so on.
pub fn runs_deliver_after_the_first_switch()
    ensures { (reading : Reading) (n : Numbering) (ue : UeId) (bearer : BearerId) (sn : SnBits)
        (quota : ℕ) (p q : Point) (first teid : ℕ) (d : DownlinkTunnel) → NoneIsZero n
        → AreInitial first teid d p → IsRefined reading n ue bearer sn quota p
        → IsOld n ue bearer p.state.units first → LeadsAt reading n ue bearer sn quota p
        → ReportsAreTrueAt reading n ue bearer sn quota p → IsKnownAt reading n ue bearer sn quota p
        → IsAtTerminal reading ue bearer p.state (both p)
        → Steps reading n ue bearer sn quota p q
        → DeliverInOrder reading n ue bearer sn quota p q }
{}

/// So from the first state of a run on, in which a terminal is set up without messages: over any steps from there its bearer delivers in
/// order.
pub fn a_terminal_delivers_in_order()
    ensures { (reading : Reading) (n : Numbering) → NoneIsZero n
        → (teid : ℕ) × (d : DownlinkTunnel)
        × IsRefined reading n terminal bearer Len12 64 (start n teid d)
        × IsAtTerminal reading terminal bearer (start n teid d).state (both (start n teid d))
        × ((q : Point) → Steps reading n terminal bearer Len12 64 (start n teid d) q
        → DeliverInOrder reading n terminal bearer Len12 64 (start n teid d) q) }
{}
