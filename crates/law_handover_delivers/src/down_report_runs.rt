//! Laws of runs beside what reports to a terminal what was carried up: over any steps of a run, a status report that it takes says only
//! what was carried up, and nothing is assumed of it. Each function does nothing: its contract is the law.
//!
//! Of an SN status that comes to a context where the terminal is already it is asked that what its bits say was carried up
//! (`AllAssumeStatus`).

ghost use Rattle.gnb_types.specs.declared.names.BearerId.{BearerId};
ghost use Rattle.gnb_types.specs.declared.names.SnBits.TheVariants.{Len12};
ghost use Rattle.gnb_types.specs.declared.names.SnBits.{SnBits};
ghost use Rattle.gnb_types.specs.declared.names.UeId.{UeId};
ghost use Rattle.law_handover_delivers.specs.down_report_frames.Statuses.{UpCameAbout};
ghost use Rattle.law_handover_delivers.specs.down_report_runs.Steps.{AssumesStatuses, ReportsDownAreTrueAt, Step, Steps};
ghost use Rattle.law_handover_delivers.specs.initial_runs.First.{DeliverInOrder};
ghost use Rattle.proof_bearer_refinement.specs.initial.First.{start};
ghost use Rattle.proof_bearer_refinement.specs.runs.Steps.{Point};
ghost use Rattle.proof_bearer_refinement.specs.du_puts.Worked.{bearer, terminal};
ghost use Rattle.proof_bearer_refinement.specs.run_bearers.Bearers.{Numbering};
ghost use Rattle.proof_bearer_refinement.specs.runs.Fair.{IsFair};
ghost use Rattle.law_handover_delivers.specs.assumed_runs.Assuming.{NoneIsZero};
ghost use Rattle.law_handover_delivers.specs.whole_runs.Whole as whole;
ghost use Rattle.law_handover_delivers.specs.whole_runs.Whole.{IsWhole};
ghost use Rattle.run_defs.specs.Runs.{Reading};
ghost use Rattle.std.specs.Prelude.{ℕ};
ghost use Rattle.unit_defs.specs.CuUpRecords.{DownlinkTunnel};
ghost use Rattle.proof_run_steps.specs.teids.Given.{GiveOnce};

/// In a state in which all is so that laws of runs carry (`IsWhole`), where the uplink's model came about by orders that asked what they
/// do, and each status report that stands on a DU's tunnel of the bearer, or on its terminal's radio down, reports only what was carried
/// up: both are so after each step of `whole_runs`, whatever makes it, where of a CU-UP's orders what is assumed of an SN status is so.
pub fn each_step_keeps_reports_true()
    ensures { (reading : Reading) (n : Numbering) (ue : UeId) (bearer : BearerId) (sn : SnBits)
        (quota : ℕ) (p q : Point) → NoneIsZero n
        → IsFair p.state → IsFair q.state → GiveOnce p.state.units q.state.units
        → IsWhole reading n ue bearer sn quota p → UpCameAbout p.up
        → ReportsDownAreTrueAt reading n ue bearer sn quota p
        → (step : whole.Step reading n ue bearer sn quota p q)
        → AssumesStatuses reading n ue bearer sn quota p q step
        → UpCameAbout q.up × ReportsDownAreTrueAt reading n ue bearer sn quota q }
{}

/// So a step in which the terminal takes a status report, of which nothing is asked, is one that `whole_runs` takes.
pub fn nothing_is_assumed_of_reports()
    ensures { (reading : Reading) (n : Numbering) (ue : UeId) (bearer : BearerId) (sn : SnBits)
        (quota : ℕ) (p q : Point) → NoneIsZero n
        → IsFair p.state → IsFair q.state → GiveOnce p.state.units q.state.units
        → IsWhole reading n ue bearer sn quota p → UpCameAbout p.up
        → ReportsDownAreTrueAt reading n ue bearer sn quota p
        → Step reading n ue bearer sn quota p q
        → (step : whole.Step reading n ue bearer sn quota p q)
        × AssumesStatuses reading n ue bearer sn quota p q step }
{}

/// So over any steps of a run, one after another.
pub fn steps_keep_reports_true()
    ensures { (reading : Reading) (n : Numbering) (ue : UeId) (bearer : BearerId) (sn : SnBits)
        (quota : ℕ) (p q : Point) → NoneIsZero n
        → IsWhole reading n ue bearer sn quota p → UpCameAbout p.up
        → ReportsDownAreTrueAt reading n ue bearer sn quota p
        → Steps reading n ue bearer sn quota p q
        → whole.Steps reading n ue bearer sn quota p q × IsWhole reading n ue bearer sn quota q
        × UpCameAbout q.up × ReportsDownAreTrueAt reading n ue bearer sn quota q }
{}

/// So from the first state of a run on, in which a terminal is set up without messages: over any steps from there each status report on the
/// bearer's links says only what was carried up, and the bearer delivers in order.
pub fn a_terminal_delivers_in_order()
    ensures { (reading : Reading) (n : Numbering) → NoneIsZero n
        → (teid : ℕ) × (d : DownlinkTunnel)
        × ((q : Point) → Steps reading n terminal bearer Len12 64 (start n teid d) q
        → whole.Steps reading n terminal bearer Len12 64 (start n teid d) q
        × ReportsDownAreTrueAt reading n terminal bearer Len12 64 q
        × DeliverInOrder reading n terminal bearer Len12 64 (start n teid d) q) }
{}
