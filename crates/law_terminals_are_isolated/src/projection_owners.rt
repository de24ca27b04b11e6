//! Laws of the projection of a terminal at nodes whose open TEIDs are those that their contexts name. Each function does nothing: its
//! contract is the law.

ghost use Rattle.gnb_types.specs.declared.names.UeId.{UeId};
ghost use Rattle.law_terminals_are_isolated.specs.du_projection.Dus.{du_projection, du_ue};
ghost use Rattle.law_tunnels_are_owned.specs.owner_facts.Owned.{DuOwns, CuUpOwns};
ghost use Rattle.law_terminals_are_isolated.specs.projections.Steps.{IsStepOf};
ghost use Rattle.law_terminals_are_isolated.specs.cu_up_projection.CuUps.{cu_up_projection, cu_up_ue};
ghost use Rattle.std.specs.Prelude.{◌≡◌, Some};
ghost use Rattle.unit_defs.specs.CuUp.{cu_up_acts};
ghost use Rattle.unit_defs.specs.Du.{du_acts, Du};
ghost use Rattle.unit_defs.specs.CuUpRecords.{CuUp};
ghost use Rattle.unit_defs.specs.Ways.{Input, Way};

/// At a CU-UP whose open TEIDs are those that its contexts name, an input that is for a terminal leaves the whole projections of
/// the others, their open TEIDs too, and all that is put out is the terminal's.
pub fn a_step_of_an_owning_cu_up_leaves_the_others<M, C, P>()
    ensures { (way : Way M C P) (ue : UeId) (input : Input C P) (r : CuUp M C) → CuUpOwns r
        → cu_up_ue r input ≡ Some ue → IsStepOf cu_up_projection ue r (cu_up_acts way r input) }
{}

/// The same of a DU.
pub fn a_step_of_an_owning_du_leaves_the_others<M, C, P>()
    ensures { (way : Way M C P) (ue : UeId) (input : Input C P) (r : Du M C) → DuOwns r
        → du_ue r input ≡ Some ue → IsStepOf du_projection ue r (du_acts way r input) }
{}
