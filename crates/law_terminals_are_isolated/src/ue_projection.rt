//! Laws of the projection of a terminal at the terminal itself: its steps are its own. Each function does nothing: its contract is the
//! law.

ghost use Rattle.law_terminals_are_isolated.specs.projections.Steps.{PutsFor};
ghost use Rattle.std.specs.Prelude.{◌≡◌};
ghost use Rattle.unit_defs.specs.Ue.{ue_acts, UeNode};
ghost use Rattle.unit_defs.specs.Ways.{Input, Way};

/// All that a terminal puts out, on any input and in any state, is its own, and it stays the terminal that it is.
pub fn a_step_of_a_terminal_is_its_own<M, C, P>()
    ensures { (way : Way M C P) (u : UeNode) (input : Input C P)
        → PutsFor u.plan.ue.0 (λ after. after.plan ≡ u.plan) (ue_acts way u input) }
{}
