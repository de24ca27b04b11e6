//! Laws of the deadlines of a CU-CP's requests: on any input only the request of a handover that is being prepared has one, so that
//! what expires can be cancelled. Each function does nothing: its contract is the law.

ghost use Rattle.std.specs.Prelude.{◌≡◌};
ghost use Rattle.gnb_types.specs.declared.names.Gnb.{Gnb};
ghost use Rattle.unit_defs.specs.Ways.{Way, Input};
ghost use Rattle.unit_defs.specs.CuCpRecords.{CuCpRecord, new_cu_cp};
ghost use Rattle.unit_defs.specs.CuCp.{cu_cp_acts};
ghost use Rattle.law_requests_act_once.specs.channel.Exactly.{IfGives};
ghost use Rattle.law_requests_act_once.specs.channel_rows.Assumed.{Cancels};
ghost use Rattle.law_requests_act_once.specs.cu_cp_deadlines.Deadlines.{DeadlinesFit};

/// On any input, whoever it is from: a request of a CU-CP has a deadline only where its terminal prepares a handover to the other gNB, and is
/// to the other CU-CP, and the only one; so it is at first, and after each step. It stays the CU-CP of its gNB.
pub fn a_cu_cp_keeps_deadlines<M, C, P>()
    ensures first { (gnb : Gnb) → DeadlinesFit {M = M} {C = C} (new_cu_cp gnb) }
    ensures next { (way : Way M C P) (r : CuCpRecord M C) (input : Input C P) → DeadlinesFit r
        → IfGives (λ q. DeadlinesFit q × (q.gnb ≡ r.gnb)) (cu_cp_acts way r input) }
{}

/// So a request that expires at the next tick is to the other CU-CP, for a terminal that has a context: a cancel goes with it.
pub fn what_expires_can_be_cancelled<M, C>()
    ensures { (r : CuCpRecord M C) → DeadlinesFit r → Cancels r }
{}
