//! Laws of the COUNTs and NR-U numbers that a CU-UP gives. Each function does nothing: its contract is the law.

ghost use Rattle.std.specs.Prelude.{ℕ, List, Option};
ghost use Rattle.proof_unit_steps.specs.count_ranges.Ranges.{CountsInRange, EndsInRange};
ghost use Rattle.unit_defs.specs.CuUpItems.{took_delivery_status, took_fresh};
ghost use Rattle.unit_defs.specs.CuUpRecords.{CuUpScope, CuUpBearer};
ghost use Rattle.unit_defs.specs.Ways.{Way};

/// What a CU-UP makes of a packet down and of a delivery status, lost frames included, leaves the bearer's next COUNT and the
/// next NR-U number of its downlink at most one above the last ones that are given; or a counter is spent.
pub fn a_cu_up_counts_in_range<M, C, P>()
    ensures packets { (way : Way M C P) (at : CuUpScope) (p : List ℕ) (b : CuUpBearer) → CountsInRange b
        → EndsInRange (took_fresh way at p b) }
    ensures statuses { (way : Way M C P) (at : CuUpScope) (lost : List (ℕ × ℕ)) (delivered : Option ℕ)
        (b : CuUpBearer) → CountsInRange b → EndsInRange (took_delivery_status way at lost delivered b) }
{}
