//! Laws of the rows round one bearer of a CU-UP. Each function does nothing: its contract is the law.

ghost use Rattle.std.specs.Prelude.{◌≡◌, true, [], Some};
ghost use Rattle.gnb_types.specs.declared.names.BearerId.{BearerId};
ghost use Rattle.gnb_types.specs.declared.names.UeId.{UeId};
ghost use Rattle.proof_unit_steps.specs.answers.After.{HoldsAfter};
ghost use Rattle.proof_cu_up_orders.specs.context_orders.Inputs.{orders_of};
ghost use Rattle.proof_cu_up_orders.specs.context_orders.Orders.{carried, model_of};
ghost use Rattle.proof_cu_up_orders.specs.context_orders.Shown.{Follows, Untouched};
ghost use Rattle.proof_unit_steps.specs.tunnel_frames.OneTunnel.{BearersInOrder};
ghost use Rattle.proof_cu_up_orders.specs.context_rows.Released.{AllPass};
ghost use Rattle.unit_defs.specs.CuUp.{context_of, cu_up_acts};
ghost use Rattle.unit_defs.specs.CuUpRecords.{CuUp, CuUpContext};
ghost use Rattle.unit_defs.specs.Ways.{Input, Way};

/// Whatever a CU-UP is given, each bearer of it is then what its orders make of it, and what is put on the bearer's tunnels and
/// handed to its user is what these orders put there.
pub fn inputs_are_orders<M, C, P>()
    ensures does { (way : Way M C P) (r : CuUp M C) (input : Input C P) (ue : UeId) (bearer : BearerId)
        → BearersInOrder r
        → Follows ue bearer (carried way ue bearer (orders_of way r ue bearer input) (model_of r ue bearer))
        (cu_up_acts way r input) }
    ensures in_order { (way : Way M C P) (r : CuUp M C) (input : Input C P) → BearersInOrder r
        → HoldsAfter BearersInOrder (cu_up_acts way r input) }
{}

/// What asks nothing of a bearer puts nothing on it, hands nothing to its user, and leaves it as it was.
pub fn what_asks_nothing_changes_nothing<M, C, P>()
    ensures { (way : Way M C P) (r : CuUp M C) (input : Input C P) (ue : UeId) (bearer : BearerId)
        → BearersInOrder r → orders_of way r ue bearer input ≡ []
        → Untouched ue bearer (model_of r ue bearer) (cu_up_acts way r input) }
{}

/// A released context is not switched, resumed, frozen, nor made again, and gets no further uplinks: whatever the CU-UP is
/// given, its bearers only take what comes, until they end.
pub fn released_contexts_only_pass_on<M, C, P>()
    ensures { (way : Way M C P) (r : CuUp M C) (ue : UeId) (bearer : BearerId) (c : CuUpContext)
        → context_of r ue ≡ Some c → c.flags.released ≡ true → (input : Input C P)
        → AllPass (orders_of way r ue bearer input) }
{}
