//! Laws of runs in which what stands on a bearer's links reports only what was received, so that of what an item reports to a CU-UP nothing
//! is assumed.
//! Each function does nothing: its contract is the law.
//!
//! A step says what makes it, so all that is asked of it can be met: that a unit acts (`IsActed`) is so of each step of a run
//! (`proof_run_steps::steps`); that other terminals' steps are beside this one's (`IsFrameStep`) is so as what a terminal puts is its own
//! (`law_terminals_are_isolated::own_events`); that the terminal shows the models (`IsAtTerminal`) goes on by
//! `proof_bearer_refinement::ue_receives`, `proof_bearer_refinement::serving_du` and `proof_bearer_refinement::uplink_radio`; and what is
//! asked of a packet that the terminal takes (`AssumedReceived`) is what `proof_bearer_refinement::ue_receives` asks, and shows where what
//! waits on the radio down is as `proof_bearer_refinement::downlink_radio` has it. Of a DU's step it isn't asked.

ghost use Rattle.gnb_types.specs.declared.names.BearerId.{BearerId};
ghost use Rattle.gnb_types.specs.declared.names.SnBits.TheVariants.{Len12};
ghost use Rattle.gnb_types.specs.declared.names.SnBits.{SnBits};
ghost use Rattle.gnb_types.specs.declared.names.UeId.{UeId};
ghost use Rattle.gnb_types.specs.declared.plans.Plan.{Plan};
ghost use Rattle.law_handover_delivers.specs.assumed_runs.Assuming.{IsWellLinkedAt, NoneIsZero};
ghost use Rattle.law_handover_delivers.specs.unused_uplinks.Later.{AreFresh};
ghost use Rattle.law_handover_delivers.specs.initial_runs.First.{AreInitial, DeliverInOrder};
ghost use Rattle.proof_bearer_refinement.specs.initial.First.{start};
ghost use Rattle.proof_bearer_refinement.specs.runs.Steps.{IsRefined, Point};
ghost use Rattle.proof_bearer_refinement.specs.du_puts.Worked.{bearer, terminal};
ghost use Rattle.law_handover_delivers.specs.assumptions.WellLinked.{IsOld};
ghost use Rattle.law_handover_delivers.specs.core_path.Paths as path;
ghost use Rattle.law_handover_delivers.specs.core_path.Paths.{CameAbout, LeadsAt};
ghost use Rattle.proof_bearer_refinement.specs.uplink_radio.Radio.{RunState};
ghost use Rattle.proof_bearer_refinement.specs.run_bearers.Bearers.{Numbering};
ghost use Rattle.proof_bearer_refinement.specs.runs.Fair.{IsFair};
ghost use Rattle.law_handover_delivers.specs.report_links.Reports.{ReportsAreTrue};
ghost use Rattle.law_handover_delivers.specs.report_runs.Steps.{CoreReads, IsKnownAt, ReportsAreTrueAt, OtherActs, Step, Steps};
ghost use Rattle.run_defs.specs.Conditions.{statically};
ghost use Rattle.run_defs.specs.Runs.{Reading};
ghost use Rattle.std.specs.Prelude.{ℕ};
ghost use Rattle.unit_defs.specs.CuUpRecords.{DownlinkTunnel};

/// Where all that stands on a bearer's tunnels and on its radio up reports only what its terminal received, it does so where a terminal is
/// set up without messages, where the core is given octets from outside, and, in each fair state, after a step of another terminal.
pub fn all_else_keeps_reports_true()
    ensures set_up { (ue : UeId) (bearer : BearerId) (deliv : ℕ) (plan : Plan) (s : RunState)
        → ReportsAreTrue ue bearer deliv s → ReportsAreTrue ue bearer deliv (statically plan s) }
    ensures octets { (reading : Reading) (ue : UeId) (bearer : BearerId) (deliv : ℕ) (s t : RunState)
        → CoreReads reading s t → ReportsAreTrue ue bearer deliv s → ReportsAreTrue ue bearer deliv t }
    ensures others { (reading : Reading) (ue : UeId) (bearer : BearerId) (deliv : ℕ) (s t : RunState)
        → IsFair s → OtherActs reading ue bearer s t
        → ReportsAreTrue ue bearer deliv s → ReportsAreTrue ue bearer deliv t }
{}

/// Where what stands on the bearer's links reports only what the model received, what was carried on its terminal's radio down and isn't
/// confirmed to the DU was received, and the downlink's model came about by orders that asked what they do: a step of which of a CU-UP's
/// orders all but what an item reports is asked is one that `core_path` takes, and both are so then.
pub fn each_step_keeps_reports_true()
    ensures { (reading : Reading) (n : Numbering) (ue : UeId) (bearer : BearerId) (sn : SnBits)
        (quota : ℕ) (p q : Point) → IsFair p.state → CameAbout sn quota p.down
        → ReportsAreTrueAt reading n ue bearer sn quota p → IsKnownAt reading n ue bearer sn quota p
        → Step reading n ue bearer sn quota p q
        → path.Step reading n ue bearer sn quota p q × ReportsAreTrueAt reading n ue bearer sn quota q
        × IsKnownAt reading n ue bearer sn quota q }
{}

/// So over any steps of a run, one after another: in each state both are so.
pub fn steps_keep_reports_true()
    ensures { (reading : Reading) (n : Numbering) (ue : UeId) (bearer : BearerId) (sn : SnBits)
        (quota : ℕ) (p q : Point) → NoneIsZero n
        → IsRefined reading n ue bearer sn quota p → AreFresh n p.state p.up
        → IsWellLinkedAt reading n ue bearer sn quota p → CameAbout sn quota p.down
        → LeadsAt reading n ue bearer sn quota p → ReportsAreTrueAt reading n ue bearer sn quota p
        → IsKnownAt reading n ue bearer sn quota p → Steps reading n ue bearer sn quota p q
        → path.Steps reading n ue bearer sn quota p q × ReportsAreTrueAt reading n ue bearer sn quota q
        × IsKnownAt reading n ue bearer sn quota q }
{}

/// From a state by which the initial models of a bearer, after the switch by which its context has its downlink, are refined, where the
/// instance of this context was given, the core's path leads to its N3 tunnel, and both are so: over any steps of the run what is
/// delivered, down and up, is a prefix of what was offered meanwhile, each packet once, with COUNTs 0, 1, 2 and so on.
pub fn runs_deliver_after_the_first_switch()
    ensures { (reading : Reading) (n : Numbering) (ue : UeId) (bearer : BearerId) (sn : SnBits)
        (quota : ℕ) (p q : Point) (first teid : ℕ) (d : DownlinkTunnel) → NoneIsZero n
        → AreInitial first teid d p → IsRefined reading n ue bearer sn quota p
        → IsOld n ue bearer p.state.units first → LeadsAt reading n ue bearer sn quota p
        → ReportsAreTrueAt reading n ue bearer sn quota p → IsKnownAt reading n ue bearer sn quota p
        → Steps reading n ue bearer sn quota p q
        → DeliverInOrder reading n ue bearer sn quota p q }
{}

/// So from the first state of a run on, in which a terminal is set up without messages: its models are refined by it, the core's path leads
/// to its context, both are so, and over any steps from there its bearer delivers in order.
pub fn a_terminal_delivers_in_order()
    ensures { (reading : Reading) (n : Numbering) → NoneIsZero n
        → (teid : ℕ) × (d : DownlinkTunnel)
        × IsRefined reading n terminal bearer Len12 64 (start n teid d)
        × LeadsAt reading n terminal bearer Len12 64 (start n teid d)
        × ReportsAreTrueAt reading n terminal bearer Len12 64 (start n teid d)
        × IsKnownAt reading n terminal bearer Len12 64 (start n teid d)
        × ((q : Point) → Steps reading n terminal bearer Len12 64 (start n teid d) q
        → DeliverInOrder reading n terminal bearer Len12 64 (start n teid d) q) }
{}
