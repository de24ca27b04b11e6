//! A law of the requests that a CU-UP takes. Each function does nothing: its contract is the law.

ghost use Rattle.law_requests_act_once.specs.taken_requests.Taken.{IsTaken, StillTaken, WasTaken};
ghost use Rattle.gnb_types.specs.declared.keys.Channel.{Channel};
ghost use Rattle.std.specs.Prelude.{ℕ, ◌≡◌};
ghost use Rattle.transaction_defs.specs.Callees.{new, verdict};
ghost use Rattle.unit_defs.specs.CuUp.{cu_up_acts};
ghost use Rattle.unit_defs.specs.Transactions.{Transactions};
ghost use Rattle.unit_defs.specs.CuUpRecords.{CuUp};
ghost use Rattle.unit_defs.specs.Ways.{Input, Way};

/// Whatever a CU-UP is given, in any state: the newest instance of a channel is never lowered, so that a request which is not new never
/// is new again; and a request of its CU-CP is not new once it came.
pub fn a_cu_up_forgets_no_request<M, C, P>()
    ensures still { (way : Way M C P) (r : CuUp M C) (input : Input C P) → StillTaken r (cu_up_acts way r input) }
    ensures taken { (way : Way M C P) (r : CuUp M C) (input : Input C P) → IsTaken r input (cu_up_acts way r input) }
    ensures not_new { (t : Transactions M C) (c : Channel) (i : ℕ) → WasTaken t c i → (verdict t.callee c i ≡ new → ⊥) }
{}
