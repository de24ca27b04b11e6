//! Laws of what receivers store. Each function does nothing: its contract is the law.

ghost use Rattle.gnb_types.specs.Orders.{bearer_cmp, ue_cmp};
ghost use Rattle.gnb_types.specs.declared.names.BearerId.{BearerId};
ghost use Rattle.gnb_types.specs.declared.names.UeId.{UeId};
ghost use Rattle.proof_unit_steps.specs.answers.After.{HoldsAfter};
ghost use Rattle.proof_unit_steps.specs.receivers.Ready.{UeReady, CuUpReady};
ghost use Rattle.std.specs.List.{AllByRecursion};
ghost use Rattle.std.specs.Prelude.{false, List, Some, ℕ, ◌+◌, ◌≡◌, ◌≤◌};
ghost use Rattle.tables.specs.Tables.{find};
ghost use Rattle.unit_defs.specs.CuUp.{cu_up_acts};
ghost use Rattle.unit_defs.specs.Ue.{ue_acts, UeBearer, UeNode};
ghost use Rattle.unit_defs.specs.CuUpRecords.{CuUp, CuUpBearer, CuUpContext};
ghost use Rattle.unit_defs.specs.Ways.{Input, Way};

/// A CU-UP at which nothing is stored but above what is awaited, while a context isn't frozen, is such a one after any input; so a
/// bearer of a context that isn't frozen stores nothing up to the COUNT that it awaits.
pub fn a_cu_up_keeps_receivers<M, C, P>()
    ensures keeps { (way : Way M C P) (r : CuUp M C) (input : Input C P)
        → CuUpReady r → HoldsAfter CuUpReady (cu_up_acts way r input) }
    ensures above { (r : CuUp M C) → CuUpReady r → (ue : UeId) (c : CuUpContext)
        → find ue_cmp r.contexts ue ≡ Some c → c.flags.frozen ≡ false → (bearer : BearerId) (b : CuUpBearer)
        → find bearer_cmp c.bearers bearer ≡ Some b
        → AllByRecursion (λ (e : ℕ × List ℕ). b.receiver.deliv + 1 ≤ e.0) b.receiver.stored }
{}

/// The same of a terminal.
pub fn a_terminal_keeps_receivers<M, C, P>()
    ensures keeps { (way : Way M C P) (u : UeNode) (input : Input C P)
        → UeReady u → HoldsAfter UeReady (ue_acts way u input) }
    ensures above { (u : UeNode) → UeReady u → (bearer : BearerId) (b : UeBearer)
        → find bearer_cmp u.bearers bearer ≡ Some b
        → AllByRecursion (λ (e : ℕ × List ℕ). b.receiver.deliv + 1 ≤ e.0) b.receiver.stored }
{}
