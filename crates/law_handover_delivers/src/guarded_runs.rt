//! Laws of runs of which nothing is asked but what is assumed of control: over any steps of them a bearer delivers in order, down and up,
//! whatever is lost on F1-U. Each function does nothing: its contract is the law.
//!
//! Steps are those of `whole_runs`. Of a packet or a status report that the terminal takes nothing is assumed: what stands on the tunnels
//! and on the radio that lead to it is carried over the steps. Assumed are, beside what `whole_runs` asks of a CU-UP, of the core and of a
//! DU that takes what stands next on the radio up: that a DU takes a frame in the epoch of the terminal's radio only from a context that
//! was switched for this radio (`AssumesFrame`), what a switch names (`AssumesSwitches`), that the bits of an SN status say what was
//! carried up (`AssumesStatuses`); and of the terminal where an arrival leads (`AssumedArrivals`), and that it has room for a packet.

ghost use Rattle.gnb_types.specs.declared.names.BearerId.{BearerId};
ghost use Rattle.gnb_types.specs.declared.names.SnBits.TheVariants.{Len12};
ghost use Rattle.gnb_types.specs.declared.names.SnBits.{SnBits};
ghost use Rattle.gnb_types.specs.declared.names.UeId.{UeId};
ghost use Rattle.law_handover_delivers.specs.initial_runs.First.{AreInitial, DeliverInOrder};
ghost use Rattle.proof_bearer_refinement.specs.initial.First.{first, start};
ghost use Rattle.law_handover_delivers.specs.assumptions.WellLinked.{IsOld};
ghost use Rattle.law_handover_delivers.specs.assumed_runs.Assuming.{NoneIsZero};
ghost use Rattle.law_handover_delivers.specs.core_path.Paths.{LeadsAt};
ghost use Rattle.proof_bearer_refinement.specs.du_puts.Worked.{bearer, terminal};
ghost use Rattle.proof_bearer_refinement.specs.uplink_radio.Radio.{IsAtTerminal};
ghost use Rattle.law_handover_delivers.specs.report_runs.Steps.{IsKnownAt, ReportsAreTrueAt};
ghost use Rattle.proof_bearer_refinement.specs.run_bearers.Bearers.{Numbering};
ghost use Rattle.proof_bearer_refinement.specs.runs.Steps.{IsRefined, Point};
ghost use Rattle.proof_bearer_refinement.specs.runs.Fair.{IsFair};
ghost use Rattle.gnb_types.specs.declared.names.Gnb.TheVariants.{A};
ghost use Rattle.gnb_types.specs.declared.names.NodeId.TheVariants.{Du};
ghost use Rattle.message_types.specs.declared.rrc.Token.{Token};
ghost use Rattle.unit_defs.specs.Ways.{Pdu, Input};
ghost use Rattle.proof_cu_up_orders.specs.context_orders.Orders.{switches};
ghost use Rattle.law_handover_delivers.specs.guarded_runs.Runs.{IsCarried, Step, Steps};
ghost use Rattle.law_handover_delivers.specs.down_report_runs.Steps.{ReportsDownAreTrueAt};
ghost use Rattle.law_handover_delivers.specs.downlink_path_steps.Way.{IsOnDownlinkPath, AssumesFrame, AssumesSwitch};
ghost use Rattle.law_handover_delivers.specs.whole_runs.Whole as whole;
ghost use Rattle.law_handover_delivers.specs.whole_runs.Whole.{both};
ghost use Rattle.run_defs.specs.Runs.{Reading};
ghost use Rattle.std.specs.Prelude.{ℕ};
ghost use Rattle.unit_defs.specs.CuUpRecords.{DownlinkTunnel};
ghost use Rattle.proof_run_steps.specs.teids.Given.{GiveOnce};
ghost use Rattle.law_handover_delivers.specs.guarded_runs.Passed.{PassedSteps};
ghost use Rattle.law_handover_delivers.specs.unused_uplinks.Later as later;
ghost use Rattle.law_handover_delivers.specs.assumed_runs.Assuming as assumed;
ghost use Rattle.law_handover_delivers.specs.core_path.Paths as paths;
ghost use Rattle.law_handover_delivers.specs.report_runs.Steps as reports;
ghost use Rattle.law_handover_delivers.specs.down_report_runs.Steps as down_reports;
ghost use Rattle.law_handover_delivers.specs.guarded_runs.Runs as guarded;

/// All laws of this crate speak of steps between fair states, of which each has all TEIDs that the one before gave. Steps of a run are such
/// steps: over states that runs from the first one pass, within events too, each of which comes from the one before (`PassedSteps`), so
/// much of each module's steps is so.
pub fn steps_of_a_run_are_fair()
    ensures fresh { (reading : Reading) (n : Numbering) (ue : UeId) (bearer : BearerId) (sn : SnBits)
        (quota : ℕ) (p q : Point) → PassedSteps reading (later.Step reading n ue bearer sn quota) p q
        → later.Steps reading n ue bearer sn quota p q }
    ensures assumed { (reading : Reading) (n : Numbering) (ue : UeId) (bearer : BearerId) (sn : SnBits)
        (quota : ℕ) (p q : Point) → PassedSteps reading (assumed.Step reading n ue bearer sn quota) p q
        → assumed.Steps reading n ue bearer sn quota p q }
    ensures paths { (reading : Reading) (n : Numbering) (ue : UeId) (bearer : BearerId) (sn : SnBits)
        (quota : ℕ) (p q : Point) → PassedSteps reading (paths.Step reading n ue bearer sn quota) p q
        → paths.Steps reading n ue bearer sn quota p q }
    ensures reports { (reading : Reading) (n : Numbering) (ue : UeId) (bearer : BearerId) (sn : SnBits)
        (quota : ℕ) (p q : Point) → PassedSteps reading (reports.Step reading n ue bearer sn quota) p q
        → reports.Steps reading n ue bearer sn quota p q }
    ensures whole { (reading : Reading) (n : Numbering) (ue : UeId) (bearer : BearerId) (sn : SnBits)
        (quota : ℕ) (p q : Point) → PassedSteps reading (whole.Step reading n ue bearer sn quota) p q
        → whole.Steps reading n ue bearer sn quota p q }
    ensures down_reports { (reading : Reading) (n : Numbering) (ue : UeId) (bearer : BearerId) (sn : SnBits)
        (quota : ℕ) (p q : Point) → PassedSteps reading (down_reports.Step reading n ue bearer sn quota) p q
        → down_reports.Steps reading n ue bearer sn quota p q }
    ensures guarded { (reading : Reading) (n : Numbering) (ue : UeId) (bearer : BearerId) (sn : SnBits)
        (quota : ℕ) (p q : Point) → PassedSteps reading (guarded.Step reading n ue bearer sn quota) p q
        → guarded.Steps reading n ue bearer sn quota p q }
{}

/// Where all is so that laws of runs carry (`IsCarried`), each step is one of `whole_runs`, and all is so then.
pub fn each_step_keeps_all()
    ensures { (reading : Reading) (n : Numbering) (ue : UeId) (bearer : BearerId) (sn : SnBits)
        (quota : ℕ) (p q : Point) → NoneIsZero n
        → IsFair p.state → IsFair q.state → GiveOnce p.state.units q.state.units
        → IsCarried reading n ue bearer sn quota p → Step reading n ue bearer sn quota p q
        → whole.Step reading n ue bearer sn quota p q × IsCarried reading n ue bearer sn quota q }
{}

/// So over any steps of a run, one after another.
pub fn steps_keep_all()
    ensures { (reading : Reading) (n : Numbering) (ue : UeId) (bearer : BearerId) (sn : SnBits)
        (quota : ℕ) (p q : Point) → NoneIsZero n
        → IsCarried reading n ue bearer sn quota p → Steps reading n ue bearer sn quota p q
        → whole.Steps reading n ue bearer sn quota p q × IsCarried reading n ue bearer sn quota q }
{}

/// From a state by which the initial models of a bearer, after the switch by which its context has its downlink, are refined, and in which
/// all else that is carried is so, with the way down and the reports on it: over any steps of the run what is delivered, down and up, is a
/// prefix of what was offered meanwhile, each packet once, with COUNTs 0, 1, 2 and so on.
pub fn runs_deliver_after_the_first_switch()
    ensures { (reading : Reading) (n : Numbering) (ue : UeId) (bearer : BearerId) (sn : SnBits)
        (quota : ℕ) (p q : Point) (first teid : ℕ) (d : DownlinkTunnel) → NoneIsZero n
        → AreInitial first teid d p → IsRefined reading n ue bearer sn quota p
        → IsOld n ue bearer p.state.units first → LeadsAt reading n ue bearer sn quota p
        → ReportsAreTrueAt reading n ue bearer sn quota p → IsKnownAt reading n ue bearer sn quota p
        → IsAtTerminal reading ue bearer p.state (both p) → IsOnDownlinkPath n ue bearer p
        → ReportsDownAreTrueAt reading n ue bearer sn quota p
        → Steps reading n ue bearer sn quota p q
        → DeliverInOrder reading n ue bearer sn quota p q }
{}

/// So from the first state of a run on, in which a terminal is set up without messages: over any steps from there its bearer delivers in
/// order.
pub fn a_terminal_delivers_in_order()
    ensures { (reading : Reading) (n : Numbering) → NoneIsZero n
        → (teid : ℕ) × (d : DownlinkTunnel)
        × IsRefined reading n terminal bearer Len12 64 (start n teid d)
        × IsAtTerminal reading terminal bearer (start n teid d).state (both (start n teid d))
        × IsOnDownlinkPath n terminal bearer (start n teid d)
        × ((q : Point) → Steps reading n terminal bearer Len12 64 (start n teid d) q
        → DeliverInOrder reading n terminal bearer Len12 64 (start n teid d) q) }
{}

/// What is assumed of the way can be met: in that state, of its DU whatever it is given, and of a switch to this DU's tunnel.
pub fn the_assumptions_can_be_met()
    ensures { (reading : Reading) (n : Numbering) (input : Input Token Pdu)
        → (teid : ℕ) × (d : DownlinkTunnel)
        × IsOnDownlinkPath n terminal bearer (start n teid d)
        × AssumesFrame n terminal bearer (start n teid d) A 1 input
        × AssumesSwitch n terminal bearer (start n teid d) (first n) (start n teid d).down.epoch
        (switches (Du A 1) 1) }
{}
