//! Laws of all bearers of a CU-UP, whatever it is given. Each function does nothing: its contract is the law.

ghost use Rattle.std.specs.Prelude.{◌≡◌, ℕ, true, false, None};
ghost use Rattle.gnb_types.specs.declared.names.BearerId.{BearerId};
ghost use Rattle.gnb_types.specs.declared.names.Gnb.{Gnb};
ghost use Rattle.gnb_types.specs.declared.names.UeId.{UeId};
ghost use Rattle.proof_unit_steps.specs.answers.After.{HoldsAfter};
ghost use Rattle.proof_cu_up_orders.specs.context_orders.Orders.{CuUpModel};
ghost use Rattle.proof_cu_up_orders.specs.context_stands.Holds.{AllStand, IsSameAfter};
ghost use Rattle.proof_cu_up_orders.specs.context_stands.Stands as always;
ghost use Rattle.proof_cu_up_orders.specs.down_orders.Down as down_rows;
ghost use Rattle.proof_unit_steps.specs.tunnel_frames.OneTunnel.{BearersInOrder};
ghost use Rattle.proof_cu_up_orders.specs.orders.Up as up_rows;
ghost use Rattle.unit_defs.specs.CuUp.{cu_up_acts, new_cu_up};
ghost use Rattle.unit_defs.specs.CuUpRecords.{CuUp};
ghost use Rattle.unit_defs.specs.Ways.{Input, Way};

/// A bearer of a CU-UP has a hop exactly while it is frozen, and its context has its SN status then and its terminal came to it: this
/// is so at the start, and stays so whatever the CU-UP is given.
pub fn bearers_stand_always<M, C, P>()
    ensures at_the_start { (gnb : Gnb) (number : ℕ) → AllStand (new_cu_up {M = M} {C = C} gnb number) }
    ensures after { (way : Way M C P) (r : CuUp M C) (input : Input C P) → BearersInOrder r → AllStand r
        → HoldsAfter AllStand (cu_up_acts way r input) }
{}

/// A bearer that is there before an input and after it is of the same context; one that wasn't there before is of a context whose
/// instance is the TEID that was the next one.
pub fn bearers_are_of_one_context<M, C, P>()
    ensures { (way : Way M C P) (r : CuUp M C) (input : Input C P) (ue : UeId) (bearer : BearerId)
        → BearersInOrder r → IsSameAfter r ue bearer (cu_up_acts way r input) }
{}

/// What is always so of a bearer, with what is assumed of control, that a released context is frozen, is what its rows ask for.
pub fn what_stands_is_enough()
    ensures down { (p : CuUpModel) → always.Stands p
        → (p.at.flags.released ≡ true → p.at.flags.frozen ≡ true) → down_rows.Stands p }
    ensures up { (p : CuUpModel) → always.Stands p
        → (p.at.flags.released ≡ true → p.at.flags.frozen ≡ true) → up_rows.Stands p }
    ensures no_hop { (p : CuUpModel) → always.Stands p → p.at.flags.frozen ≡ false
        → p.bearer.hop ≡ None }
{}
