//! Laws of two runs: after the same acts of a terminal its projection is the same. Each function does nothing: its contract is the law.

ghost use Rattle.gnb_types.specs.declared.names.UeId.{UeId};
ghost use Rattle.law_terminals_are_isolated.specs.step_consistency.Places.{in_place, Place, RunCause, shared_at};
ghost use Rattle.law_terminals_are_isolated.specs.all_steps.Projections.{ShareProjection};
ghost use Rattle.law_terminals_are_isolated.specs.all_steps.Steps.{AfterSteps};
ghost use Rattle.law_terminals_are_isolated.specs.own_events.Events.{RunState};
ghost use Rattle.proof_run_steps.specs.steps.Causes.{node_of};
ghost use Rattle.law_terminals_are_isolated.specs.two_runs.Acts.{ActsItself, HasActed, IsBare, TerminalAct};
ghost use Rattle.proof_run_steps.specs.steps.Reached.{reached};
ghost use Rattle.law_terminals_are_isolated.specs.two_runs.Example.{after_another, alone, second};
ghost use Rattle.run_defs.specs.Runs.{plain_world, Reading};
ghost use Rattle.run_defs.specs.States.{new_state};
ghost use Rattle.std.specs.List.{AllByRecursion};
ghost use Rattle.std.specs.Prelude.{is_some, true, List, Some, ◌≡◌};

/// Two runs, each with events of its own, whose acts for a terminal were the same, one after another, have its whole projection in
/// common: what all units and the core keep of it, which open TEIDs are its, and its messages, items, books, connection and plan.
/// An act is what a unit takes for the terminal, with what couples terminals at that unit; a packet that the core puts, and a message
/// that it takes; an item that is lost. Of all else that a run does between them, to whomever, nothing is asked but that it is no
/// business of the terminal's.
pub fn the_same_acts_leave_the_same_projection()
    ensures { (reading : Reading) (ue : UeId) (acts : List TerminalAct) (s t : RunState)
        → HasActed reading ue acts s → HasActed reading ue acts t → ShareProjection ue s t }
{}

/// And whatever steps a run makes, its acts for a terminal are a list of such, in which nothing is said of the places and numbers of
/// what is taken: so its projection is what this list makes of it, and of all else nothing enters but what couples terminals at the units
/// that act for it.
pub fn each_run_has_acts_for_a_terminal()
    ensures { (reading : Reading) (ue : UeId) (t : RunState) → AfterSteps reading t
        → (acts : List TerminalAct) × HasActed reading ue acts t × AllByRecursion IsBare acts }
{}

/// So a unit's step for a terminal depends on the terminal's projection and on what is shared at the unit alone, over the whole state of a
/// run: where two states have the projection in common, and the same stands there to be taken, they have it in common after the step.
pub fn a_step_depends_on_the_projection()
    ensures { (reading : Reading) (ue : UeId) (cause : RunCause) (place other : Place)
        (s x t y : RunState) → AfterSteps reading s → AfterSteps reading t
        → ShareProjection ue s t → ActsItself reading ue cause place s x
        → ActsItself reading ue cause other t y
        → shared_at s.units (node_of (in_place place cause))
        ≡ shared_at t.units (node_of (in_place other cause))
        → ShareProjection ue x y }
{}

/// The same events aren't enough: where another terminal is set up before it, one gets other TEIDs by the same event. So acts say what
/// is shared at their units.
pub fn the_same_events_are_not_enough()
    ensures alone { (reading : Reading)
        → is_some (reached (plain_world reading) alone new_state) ≡ true }
    ensures after { (reading : Reading)
        → is_some (reached (plain_world reading) after_another new_state) ≡ true }
    ensures differ { (reading : Reading) (s t : RunState)
        → reached (plain_world reading) after_another new_state ≡ Some s
        → reached (plain_world reading) alone new_state ≡ Some t → ShareProjection second s t → ⊥ }
{}
