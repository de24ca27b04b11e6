//! Laws of the projection of a terminal at a CU-UP: a step is one terminal's. Each function does nothing: its contract is the law.

ghost use Rattle.gnb_types.specs.declared.names.UeId.{UeId};
ghost use Rattle.gnb_types.specs.declared.reasons.DropReason.TheVariants.{NoTunnel};
ghost use Rattle.law_terminals_are_isolated.specs.projections.Steps.{seen, IsStepOf};
ghost use Rattle.law_terminals_are_isolated.specs.cu_up_projection.CuUps.{cu_up_without_teids, cu_up_view, cu_up_ue, SameRoom};
ghost use Rattle.std.specs.Ordering.{nat_cmp};
ghost use Rattle.std.specs.Prelude.{ℕ, ◌≡◌, Some, None};
ghost use Rattle.tables.specs.Tables.{find};
ghost use Rattle.unit_defs.specs.CuUp.{cu_up_acts};
ghost use Rattle.unit_defs.specs.CuUpRecords.{CuUp};
ghost use Rattle.unit_defs.specs.Ways.{drops, packet_input, Input, Taken, Way};

/// What a CU-UP does with an input that is for a terminal depends on the terminal's projection and on what is shared alone: of two
/// CU-UPs that have these in common, and of which both or neither have room for a setup, both put out the same, and have
/// them in common then. An item for a TEID that isn't open changes nothing.
pub fn a_step_of_a_cu_up_depends_on_the_projection<M, C, P>()
    ensures depends { (way : Way M C P) (ue : UeId) (input : Input C P) (r q : CuUp M C)
        → cu_up_view ue r ≡ cu_up_view ue q → SameRoom r q → cu_up_ue r input ≡ Some ue
        → seen (cu_up_view ue) (cu_up_acts way r input) ≡ seen (cu_up_view ue) (cu_up_acts way q input) }
    ensures unknown { (way : Way M C P) (teid : ℕ) (item : Taken P) (r : CuUp M C)
        → find nat_cmp r.tunnels teid ≡ None → cu_up_acts way r (packet_input teid item) ≡ drops NoTunnel r }
{}

/// All that it puts out is the terminal's, and the contexts, requests and replies of the others stay.
pub fn a_step_of_a_cu_up_leaves_the_others<M, C, P>()
    ensures { (way : Way M C P) (ue : UeId) (input : Input C P) (r : CuUp M C)
        → cu_up_ue r input ≡ Some ue → IsStepOf cu_up_without_teids ue r (cu_up_acts way r input) }
{}
