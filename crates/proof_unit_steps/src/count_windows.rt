//! Laws of the window of a CU-UP. Each function does nothing: its contract is the law.

ghost use Rattle.std.specs.Prelude.{ℕ, List, Option};
ghost use Rattle.proof_unit_steps.specs.count_windows.Windows.{EndsInWindow, InWindow};
ghost use Rattle.unit_defs.specs.CuUpItems.{took_delivery_status, took_fresh};
ghost use Rattle.unit_defs.specs.CuUpRecords.{CuUpScope, CuUpBearer};
ghost use Rattle.unit_defs.specs.Ways.{Way};

/// Where what a CU-UP holds as unconfirmed on a bearer has the COUNTs below its next one, without a gap, and is no more than the
/// window, so it is after a packet down and after a delivery status, lost frames included; or a counter is spent.
pub fn a_cu_up_counts_in_its_window<M, C, P>()
    ensures packets { (way : Way M C P) (at : CuUpScope) (p : List ℕ) (b : CuUpBearer)
        → InWindow at.sn at.quota b.sender → EndsInWindow at (took_fresh way at p b) }
    ensures statuses { (way : Way M C P) (at : CuUpScope) (lost : List (ℕ × ℕ)) (delivered : Option ℕ) (b : CuUpBearer)
        → InWindow at.sn at.quota b.sender
        → EndsInWindow at (took_delivery_status way at lost delivered b) }
{}
