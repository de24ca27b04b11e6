//! Laws of what is offered to a CU-CP: the request of each offer stays the newest that it took, unanswered. Each function does nothing: its
//! contract is the law.

ghost use Rattle.std.specs.Prelude.{◌≡◌, ℕ, Bool, true};
ghost use Rattle.gnb_types.specs.declared.names.UeId.{UeId};
ghost use Rattle.unit_defs.specs.Ways.{Way, Input};
ghost use Rattle.unit_defs.specs.CuCpRecords.{CuCpRecord};
ghost use Rattle.unit_defs.specs.CuCp.{cu_cp_acts};
ghost use Rattle.law_requests_act_once.specs.channel.Exactly.{IfGives};
ghost use Rattle.law_requests_act_once.specs.cu_cp_offers.Offers.{OffersStand, InputFits};

/// Where each offered terminal's request is the newest that the CU-CP took from the other one, unanswered, and one that was asked for, so
/// it is after any input, if of requests that come new the one for an offered terminal is a cancel, and one for a handover is of the
/// other CU-CP and was asked for.
pub fn a_cu_cp_keeps_offers<M, C, P>()
    ensures { (way : Way M C P) (was_asked : UeId → ℕ → Bool) (r : CuCpRecord M C) (input : Input C P)
        → OffersStand (λ ue i. was_asked ue i ≡ true) r → InputFits (λ ue i. was_asked ue i ≡ true) r input
        → IfGives (λ q. OffersStand (λ ue i. was_asked ue i ≡ true) q × (q.gnb ≡ r.gnb)) (cu_cp_acts way r input) }
{}
