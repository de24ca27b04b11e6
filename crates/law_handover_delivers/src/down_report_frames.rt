//! Laws of the status reports that a CU-UP puts for a terminal. Each function does nothing: its contract is the law.

ghost use Rattle.bearer_defs.specs.chain_defs.Models as down_models;
ghost use Rattle.gnb_types.specs.declared.names.BearerId.{BearerId};
ghost use Rattle.gnb_types.specs.declared.names.Gnb.{Gnb};
ghost use Rattle.gnb_types.specs.declared.names.NodeId.{NodeId};
ghost use Rattle.gnb_types.specs.declared.names.SnBits.{SnBits};
ghost use Rattle.gnb_types.specs.declared.names.UeId.{UeId};
ghost use Rattle.gnb_types.specs.declared.plans.SnStatus.{SnStatus};
ghost use Rattle.law_terminals_are_isolated.specs.own_steps.Own.{IsActed};
ghost use Rattle.proof_cu_up_orders.specs.context_orders.Orders.{ContextStep, CuUpModel};
ghost use Rattle.law_handover_delivers.specs.down_report_frames.Sent.{FramesAreTrue, OrderIsTrue};
ghost use Rattle.law_handover_delivers.specs.down_report_frames.Statuses.{AllAssumeStatus, BitsAreTrue, UpCameAbout};
ghost use Rattle.law_handover_delivers.specs.down_reports.Reports.{ReportIsTrue, ReportsDownAreTrue};
ghost use Rattle.proof_cu_up_orders.specs.frame_rows.Sent.{sent_by, switched_to};
ghost use Rattle.law_handover_delivers.specs.assumptions.Assumed.{AllAssume, final_asks};
ghost use Rattle.law_handover_delivers.specs.assumptions.WellLinked.{AreWellLinked};
ghost use Rattle.proof_cu_up_orders.specs.bearer_orders.Happenings.{Beside};
ghost use Rattle.proof_bearer_refinement.specs.run_bearers.Bearers.{contexts_of, Numbering};
ghost use Rattle.proof_bearer_refinement.specs.run_unit_inputs.Happenings.{CuUpRecord};
ghost use Rattle.proof_bearer_refinement.specs.refinement_facts.Asked.{Refines, IsUpStep, RunCause};
ghost use Rattle.proof_bearer_refinement.specs.refinement_facts.Refinements.{RunState};
ghost use Rattle.proof_bearer_refinement.specs.runs.Fair.{IsFair};
ghost use Rattle.proof_cu_up_orders.specs.orders.Up.{IsUp};
ghost use Rattle.bearer_defs.specs.uplink_defs.Assumptions.{AreKept};
ghost use Rattle.bearer_defs.specs.uplink_defs.Orders.{knows, switches};
ghost use Rattle.bearer_defs.specs.uplink_defs.Models.{Model};
ghost use Rattle.message_types.specs.declared.rrc.Token.{Token};
ghost use Rattle.pdcp_defs.specs.Receivers.{received_bits};
ghost use Rattle.run_defs.specs.Runs.{plain_world, Reading};
ghost use Rattle.run_defs.specs.States.{sn_of};
ghost use Rattle.run_defs.specs.Units.{with_cu_up};
ghost use Rattle.run_defs.specs.Written.{written_put};
ghost use Rattle.scenario_text.specs.declared.event.Event.{Event};
ghost use Rattle.std.specs.Prelude.{[], List, map, true, ◌∷◌, ◌≡◌, ◌≤◌, ℕ};
ghost use Rattle.unit_defs.specs.CuUpBearers.{bits_in, status_of};
ghost use Rattle.unit_defs.specs.Ways.{Input, Message, Output, Pdu};

/// The frames that a bearer of a CU-UP sends, whatever is asked of it, carry no status report but two: at a switch, where its SN status is
/// known, what its receiver has; and at an SN status, where the terminal is there, what this says.
pub fn rows_report_what_is_asked()
    ensures { (reached : ℕ) (p : CuUpModel) (order : ContextStep Pdu) → OrderIsTrue reached p order
        → FramesAreTrue reached (sent_by p order).frames }
{}

/// Where the uplink's model came about by orders each of which asked what it does, and the next order asks what it does: what the context
/// reports at a switch was carried up; and so was what an SN status says, in the context where the terminal is, if what its bits say was.
pub fn kept_orders_report_what_was_carried_up()
    ensures switch { (u : Model) (x : ℕ) (p : CuUpModel) (du : NodeId) (teid : ℕ) → UpCameAbout u
        → IsUp (u.members x) p → AreKept u (switches x ∷ []) → p.at.flags.may_serve ≡ true
        → ReportIsTrue u.reached (switched_to p du teid).receiver.deliv
        (received_bits (switched_to p du teid).receiver) }
    ensures sn_status { (u : Model) (x : ℕ) (status : SnStatus) → UpCameAbout u
        → AreKept u (knows x status ∷ []) → x ≡ u.station → BitsAreTrue u.reached status
        → ReportIsTrue u.reached status.ul_first (bits_in status.ul_received) }
{}

/// What a context says of itself, where the terminal is there and its SN status is known, as it does in the SN status that it gives at a freeze,
/// is such: what its bits say was carried up then, and so it was later. So where an SN status is what its source gave, what is asked of it is
/// so.
pub fn what_a_source_says_was_carried_up()
    ensures source { (u : Model) (x : ℕ) (p : CuUpModel) (bearer : BearerId) → UpCameAbout u
        → IsUp (u.members x) p → x ≡ u.station → p.at.flags.may_serve ≡ true
        → BitsAreTrue u.reached (status_of bearer p.bearer) }
    ensures later { (reached later : ℕ) (status : SnStatus) → reached ≤ later
        → BitsAreTrue reached status → BitsAreTrue later status }
{}

/// So it is in a run: where the models are refined by its state, what is assumed of a CU-UP's orders is so, and the uplink's model came
/// about by orders that asked what they do, a step of the CU-UP, whatever this takes, leaves it so that each status report that stands on a
/// DU's tunnel of the bearer, or on its terminal's radio down, reports only what was carried up.
pub fn a_cu_up_keeps_reports_true()
    ensures { (reading : Reading) (n : Numbering) (ue : UeId) (bearer : BearerId) (sn : SnBits)
        (quota : ℕ) (event : Event) (s t : RunState) (gnb : Gnb) (number : ℕ) (cause : RunCause)
        (input : Input Token Pdu) (outputs : List (Output (Message Token) Pdu)) (v : CuUpRecord)
        (beside : Beside) (d : down_models.Model) (u : Model)
        → IsUpStep reading s t gnb number cause input outputs v
        → IsFair s → IsFair t
        → IsActed (plain_world reading) event s cause (map (written_put (sn_of s)) outputs)
        (with_cu_up s.units gnb number v)
        → Refines n ue bearer sn quota s d u
        → AreWellLinked n ue bearer s.units d u (contexts_of n ue bearer s.units) → UpCameAbout u
        → AllAssume n ue bearer s.units sn quota d u (contexts_of n ue bearer s.units)
        (final_asks n ue bearer s gnb number cause input beside)
        → AllAssumeStatus ue bearer u (contexts_of n ue bearer s.units)
        (final_asks n ue bearer s gnb number cause input beside)
        → ReportsDownAreTrue ue bearer u.reached s → ReportsDownAreTrue ue bearer u.reached t }
{}
