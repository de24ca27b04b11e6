//! Laws of the events that are for a terminal: they leave the others. Each function does nothing: its contract is the law.

ghost use Rattle.gnb_types.specs.declared.names.UeId.{UeId};
ghost use Rattle.law_terminals_are_isolated.specs.named_events.Named.{event_ue};
ghost use Rattle.law_terminals_are_isolated.specs.own_events.Events.{AllFor, RunState};
ghost use Rattle.law_terminals_are_isolated.specs.own_steps.Own.{LeavesOthers};
ghost use Rattle.proof_run_steps.specs.steps.IsOutcome.{IsOutcome};
ghost use Rattle.proof_run_steps.specs.steps.Reached.{reached};
ghost use Rattle.message_types.specs.declared.rrc.Token.{Token};
ghost use Rattle.run_defs.specs.Runs.{happens, plain_world, Reading};
ghost use Rattle.run_defs.specs.States.{goes, new_state, RunStep};
ghost use Rattle.scenario_text.specs.declared.event.Event.{Event};
ghost use Rattle.std.specs.Prelude.{List, Some, ◌≡◌};
ghost use Rattle.unit_defs.specs.Ways.{Message};

/// In every state that a run reaches, an event that is for a terminal comes to steps that are all the terminal's.
pub fn steps_of_an_event_for_a_terminal_are_its_own()
    ensures { (reading : Reading) (events : List Event) (event : Event) (s : RunState) (ue : UeId)
        → reached (plain_world reading) events new_state ≡ Some s → event_ue s event ≡ Some ue
        → (made : IsOutcome (plain_world reading) event s (happens (plain_world reading) event s))
        × AllFor reading event ue s (happens (plain_world reading) event s) made }
{}

/// So in every run an event that is for a terminal, refused or not, leaves the whole projections of all others: what every unit and the
/// core keep of them, which open TEIDs are theirs, and all that the run keeps beside, on every link.
pub fn an_event_for_a_terminal_leaves_the_others()
    ensures { (reading : Reading) (events : List Event) (event : Event) (s t : RunState) (ue : UeId)
        (told : List (RunStep (Message Token)))
        → reached (plain_world reading) events new_state ≡ Some s → event_ue s event ≡ Some ue
        → happens (plain_world reading) event s ≡ goes told t → LeavesOthers ue s t }
{}
