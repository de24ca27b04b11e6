//! Laws of the projection of a terminal: what it is, and that a step of the core is one terminal's. Each function does nothing: its
//! contract is the law.

ghost use Rattle.gnb_types.specs.declared.names.NodeId.{NodeId};
ghost use Rattle.law_terminals_are_isolated.specs.projections.Projections.{core_projection, message_ue};
ghost use Rattle.law_terminals_are_isolated.specs.projections.Steps.{DependsOn, IsStepOf};
ghost use Rattle.unit_defs.specs.Core.{core_acts, CoreRecord};
ghost use Rattle.unit_defs.specs.Ways.{Message, Way};

/// What the core does with a message depends on the projection of the message's terminal alone, of which it puts out all; and the
/// projections of the others stay.
pub fn a_step_of_the_core_is_one_terminals<M, C, P>()
    ensures depends { (way : Way M C P) (from : NodeId) (m : Message C)
        → DependsOn (core_projection (message_ue from m)) (λ r. core_acts way r from m) }
    ensures leaves { (way : Way M C P) (from : NodeId) (m : Message C) (r : CoreRecord M C)
        → IsStepOf core_projection (message_ue from m) r (core_acts way r from m) }
{}
