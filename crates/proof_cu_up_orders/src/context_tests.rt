//! Laws of what a CU-UP tests of its own. Each function does nothing: its contract is the law.

ghost use Rattle.gnb_types.specs.declared.names.BearerId.{BearerId};
ghost use Rattle.gnb_types.specs.declared.names.UeId.{UeId};
ghost use Rattle.proof_cu_up_orders.specs.context_orders.Inputs.{orders_of};
ghost use Rattle.proof_cu_up_orders.specs.context_orders.Orders.{model_of};
ghost use Rattle.proof_cu_up_orders.specs.context_tests.Tests.{is_final, AreTested};
ghost use Rattle.unit_defs.specs.CuUpRecords.{CuUp};
ghost use Rattle.unit_defs.specs.Ways.{Input, Way};

/// Whatever a CU-UP is given, it asks one thing of a bearer, and tests first that the bearer's state allows it; and its end then
/// at most, where the context was released and nothing comes any more. A context that is made has the next TEID as its instance.
pub fn orders_are_tested<M, C, P>()
    ensures { (way : Way M C P) (r : CuUp M C) (ue : UeId) (bearer : BearerId) (input : Input C P)
        → AreTested way ue bearer (is_final input) r.next_teid (orders_of way r ue bearer input)
        (model_of r ue bearer) }
{}
