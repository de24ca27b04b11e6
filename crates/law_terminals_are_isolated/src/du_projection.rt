//! Laws of the projection of a terminal at a DU: a step is one terminal's. Each function does nothing: its contract is the law.

ghost use Rattle.gnb_types.specs.declared.names.UeId.{UeId};
ghost use Rattle.gnb_types.specs.declared.reasons.DropReason.TheVariants.{NoTunnel};
ghost use Rattle.law_terminals_are_isolated.specs.du_projection.Dus.{du_projection, du_view, du_ue, IsApart};
ghost use Rattle.law_terminals_are_isolated.specs.projections.Steps.{seen, IsStepOf};
ghost use Rattle.std.specs.Ordering.{nat_cmp};
ghost use Rattle.std.specs.Prelude.{ℕ, ◌≡◌, Some, None};
ghost use Rattle.tables.specs.Tables.{find};
ghost use Rattle.unit_defs.specs.Du.{du_acts, Du};
ghost use Rattle.unit_defs.specs.Ways.{drops, packet_input, Input, Taken, Way};

/// What a DU does with an input that is for a terminal depends on the terminal's projection and on what is shared alone: of two DUs
/// that have these in common both put out the same, and have them in common then.
pub fn a_step_of_a_du_depends_on_the_projection<M, C, P>()
    ensures { (way : Way M C P) (ue : UeId) (input : Input C P) (r q : Du M C)
        → du_view ue r ≡ du_view ue q → du_ue r input ≡ Some ue
        → seen (du_view ue) (du_acts way r input) ≡ seen (du_view ue) (du_acts way q input) }
{}

/// All that it puts out is the terminal's, and the projections of the others stay, where no TEID is two terminals'. An item for a
/// TEID that isn't open changes nothing.
pub fn a_step_of_a_du_leaves_the_others<M, C, P>()
    ensures leaves { (way : Way M C P) (ue : UeId) (input : Input C P) (r : Du M C)
        → IsApart r → du_ue r input ≡ Some ue → IsStepOf du_projection ue r (du_acts way r input) }
    ensures unknown { (way : Way M C P) (teid : ℕ) (item : Taken P) (r : Du M C)
        → find nat_cmp r.tunnels teid ≡ None → du_acts way r (packet_input teid item) ≡ drops NoTunnel r }
{}
