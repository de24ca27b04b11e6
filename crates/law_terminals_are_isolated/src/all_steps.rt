//! Laws of all steps of a run: those that are no business of a terminal leave its whole projection. Each function does nothing: its
//! contract is the law.

ghost use Rattle.gnb_types.specs.declared.names.UeId.{UeId};
ghost use Rattle.law_terminals_are_isolated.specs.all_steps.Projections.{ShareProjection};
ghost use Rattle.law_terminals_are_isolated.specs.all_steps.Steps.{AfterSteps, IsNoBusiness, NoneFor};
ghost use Rattle.law_terminals_are_isolated.specs.own_events.Events.{RunOutcome, RunState};
ghost use Rattle.law_terminals_are_isolated.specs.own_events.Passed.{Passes};
ghost use Rattle.proof_run_steps.specs.steps.IsOutcome.{IsOutcome};
ghost use Rattle.proof_run_steps.specs.steps.Reached.{reached};
ghost use Rattle.message_types.specs.declared.rrc.Token.{Token};
ghost use Rattle.run_defs.specs.Runs.{happens, plain_world, Reading};
ghost use Rattle.run_defs.specs.States.{goes, new_state, RunStep};
ghost use Rattle.scenario_text.specs.declared.event.Event.{Event};
ghost use Rattle.std.specs.Prelude.{List, Some, ◌≡◌};
ghost use Rattle.unit_defs.specs.Ways.{Message};

/// Each state that a run reaches, and each that it passes within an event, comes after steps; so what is said of those is said of
/// every run.
pub fn states_of_runs_come_after_steps()
    ensures { (reading : Reading) (events : List Event) (event : Event) (s t : RunState)
        → reached (plain_world reading) events new_state ≡ Some s
        → Passes (plain_world reading) event s t → AfterSteps reading t }
{}

/// After any steps of a run, further steps that are no business of a terminal leave its whole projection: what all units and the core
/// keep of it, which open TEIDs are its, and its messages, items, books, connection and plan. A step is none of its business where
/// it is for another terminal, or for none and neither a tick nor the terminal's own: a terminal that is set up without messages,
/// starts, octets that don't decode, messages and items that are lost, and the core's steps are such.
pub fn steps_of_others_leave_a_terminal()
    ensures { (reading : Reading) (event : Event) (ue : UeId) (s t : RunState) (e : RunOutcome)
        (told : List (RunStep (Message Token))) (made : IsOutcome (plain_world reading) event s e)
        → AfterSteps reading s → NoneFor reading event ue s e made → e ≡ goes told t
        → ShareProjection ue s t }
{}

/// So in every run each event but `tick`, `pump` and `settle` leaves the whole projection of a terminal that it isn't for: it names
/// another one, or takes what is another one's; it sets up another one without messages, or starts the units; it loses another
/// one's item, or any message; or its octets aren't for the terminal itself.
pub fn events_of_others_leave_a_terminal()
    ensures { (reading : Reading) (events : List Event) (event : Event) (ue : UeId) (s t : RunState)
        (told : List (RunStep (Message Token)))
        → reached (plain_world reading) events new_state ≡ Some s
        → IsNoBusiness reading ue s event → happens (plain_world reading) event s ≡ goes told t
        → ShareProjection ue s t }
{}
