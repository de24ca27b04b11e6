//! Laws of the ticks of units: a tick is a step of each terminal, one beside another. Each function does nothing: its contract is
//! the law.

ghost use Rattle.gnb_types.specs.declared.names.UeId.{UeId};
ghost use Rattle.gnb_types.specs.Orders.{channel_cmp, ue_cmp};
ghost use Rattle.law_terminals_are_isolated.specs.cu_cp_projection.CuCps.{cu_cp_view};
ghost use Rattle.law_terminals_are_isolated.specs.du_projection.Dus.{du_view};
ghost use Rattle.law_terminals_are_isolated.specs.projections.Steps.{seen};
ghost use Rattle.law_terminals_are_isolated.specs.tick_projections.Ticks.{own_dues, ShowsOwn, cu_cp_own_tick, du_own_tick, cu_up_own_tick};
ghost use Rattle.law_terminals_are_isolated.specs.cu_up_projection.CuUps.{cu_up_view};
ghost use Rattle.std.specs.Prelude.{◌≡◌};
ghost use Rattle.tables.specs.Tables.{IsSorted};
ghost use Rattle.transaction_defs.specs.Callers.{due};
ghost use Rattle.unit_defs.specs.CuCpRecords.{CuCpRecord};
ghost use Rattle.unit_defs.specs.CuCp.{cu_cp_acts};
ghost use Rattle.unit_defs.specs.CuUp.{cu_up_acts};
ghost use Rattle.unit_defs.specs.Du.{du_acts, Du};
ghost use Rattle.unit_defs.specs.CuUpRecords.{CuUp};
ghost use Rattle.unit_defs.specs.Ways.{tick_input, Way};

/// What a tick of a CU-CP does for a terminal, where the tick goes on, is what the terminal's own part does: its due requests,
/// and its command. That depends on the terminal's projection, on what is shared and on which of its requests are due alone.
pub fn a_tick_of_a_cu_cp_is_each_terminals<M, C, P>()
    ensures shows { (way : Way M C P) (ue : UeId) (r : CuCpRecord M C) → IsSorted ue_cmp r.terminals
        → ShowsOwn (cu_cp_view ue) ue.0 (cu_cp_acts way r tick_input) (cu_cp_own_tick way ue r) }
    ensures depends { (way : Way M C P) (ue : UeId) (r q : CuCpRecord M C) → cu_cp_view ue r ≡ cu_cp_view ue q
        → own_dues ue.0 (due r.transactions.caller) ≡ own_dues ue.0 (due q.transactions.caller)
        → IsSorted channel_cmp r.transactions.caller.opened
        → IsSorted channel_cmp q.transactions.caller.opened
        → seen (cu_cp_view ue) (cu_cp_own_tick way ue r) ≡ seen (cu_cp_view ue) (cu_cp_own_tick way ue q) }
{}

/// The same of a DU, whose own part is the terminal's due requests.
pub fn a_tick_of_a_du_is_each_terminals<M, C, P>()
    ensures shows { (way : Way M C P) (ue : UeId) (r : Du M C)
        → ShowsOwn (du_view ue) ue.0 (du_acts way r tick_input) (du_own_tick way ue r) }
    ensures depends { (way : Way M C P) (ue : UeId) (r q : Du M C) → du_view ue r ≡ du_view ue q
        → own_dues ue.0 (due r.transactions.caller) ≡ own_dues ue.0 (due q.transactions.caller)
        → IsSorted channel_cmp r.transactions.caller.opened
        → IsSorted channel_cmp q.transactions.caller.opened
        → seen (du_view ue) (du_own_tick way ue r) ≡ seen (du_view ue) (du_own_tick way ue q) }
{}

/// The same of a CU-UP.
pub fn a_tick_of_a_cu_up_is_each_terminals<M, C, P>()
    ensures shows { (way : Way M C P) (ue : UeId) (r : CuUp M C)
        → ShowsOwn (cu_up_view ue) ue.0 (cu_up_acts way r tick_input) (cu_up_own_tick way ue r) }
    ensures depends { (way : Way M C P) (ue : UeId) (r q : CuUp M C) → cu_up_view ue r ≡ cu_up_view ue q
        → own_dues ue.0 (due r.transactions.caller) ≡ own_dues ue.0 (due q.transactions.caller)
        → IsSorted channel_cmp r.transactions.caller.opened
        → IsSorted channel_cmp q.transactions.caller.opened
        → seen (cu_up_view ue) (cu_up_own_tick way ue r) ≡ seen (cu_up_view ue) (cu_up_own_tick way ue q) }
{}
