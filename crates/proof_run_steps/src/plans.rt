//! Laws of the plans of a run's terminals. Each function does nothing: its contract is the law.

ghost use Rattle.proof_run_steps.specs.plans.Plans.{AreOfTheirPlans, PlansStay};
ghost use Rattle.proof_run_steps.specs.steps.Reached.{reached};
ghost use Rattle.message_types.specs.declared.rrc.Token.{Token};
ghost use Rattle.run_defs.specs.Runs.{plain_world, Reading};
ghost use Rattle.run_defs.specs.States.{new_state, State, World};
ghost use Rattle.run_defs.specs.Written.{Written};
ghost use Rattle.scenario_text.specs.declared.event.Event.{Event};
ghost use Rattle.std.specs.Prelude.{List, Some, ◌≡◌};
ghost use Rattle.unit_defs.specs.Ways.{Load, Message, Pdu};

/// In every run, whatever units and the core answer, and from every state: the plan that is kept of a terminal is kept for good,
/// so the length of its numbers is the same in each later state.
pub fn plans_stay<M, C, L, P>()
    ensures { (world : World M C L P) (events : List Event) (s t : State M C L P)
        → reached world events s ≡ Some t → PlansStay s.plans t.plans }
{}

/// In every run of the whole base station each terminal is there with the plan that the run keeps of it.
pub fn terminals_have_their_plans()
    ensures { (reading : Reading) (events : List Event)
        (t : State (Message Token) Token (Written (Load Pdu)) (Written Pdu))
        → reached (plain_world reading) events new_state ≡ Some t → AreOfTheirPlans t.units t.plans }
{}
