//! Laws of the projection of a terminal at a CU-CP: a step is one terminal's. Each function does nothing: its contract is the law.

ghost use Rattle.gnb_types.specs.declared.names.UeId.{UeId};
ghost use Rattle.law_terminals_are_isolated.specs.cu_cp_projection.CuCps.{cu_cp_projection, cu_cp_view, cu_cp_ue};
ghost use Rattle.law_terminals_are_isolated.specs.projections.Steps.{DependsOn, IsStepOf};
ghost use Rattle.std.specs.Prelude.{◌≡◌, Some};
ghost use Rattle.unit_defs.specs.CuCpRecords.{CuCpRecord};
ghost use Rattle.unit_defs.specs.CuCp.{cu_cp_acts};
ghost use Rattle.unit_defs.specs.Ways.{Input, Way};

/// What a CU-CP does with an input that is for a terminal depends on the terminal's projection and on what is shared alone: of two
/// CU-CPs that have these in common both put out the same, and have them in common then.
pub fn a_step_of_a_cu_cp_depends_on_the_projection<M, C, P>()
    ensures { (way : Way M C P) (ue : UeId) (input : Input C P) → cu_cp_ue input ≡ Some ue
        → DependsOn (cu_cp_view ue) (λ r. cu_cp_acts way r input) }
{}

/// All that it puts out is the terminal's, and the projections of the others stay.
pub fn a_step_of_a_cu_cp_leaves_the_others<M, C, P>()
    ensures { (way : Way M C P) (ue : UeId) (input : Input C P) (r : CuCpRecord M C)
        → cu_cp_ue input ≡ Some ue → IsStepOf cu_cp_projection ue r (cu_cp_acts way r input) }
{}
