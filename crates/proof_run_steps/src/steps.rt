//! A law of the events of any run. Each function does nothing: its contract is the law.

ghost use Rattle.run_defs.specs.Runs.{happens};
ghost use Rattle.run_defs.specs.States.{State, World};
ghost use Rattle.scenario_text.specs.declared.event.Event.{Event};
ghost use Rattle.proof_run_steps.specs.steps.IsOutcome.{IsOutcome};

/// Whatever units and the core do, and from every state, an event comes to steps, one after another, each of one of a few
/// kinds: so what holds of these, and of one after another, holds of every event, of settling too.
pub fn events_are_made_of_steps<M, C, L, P>()
    ensures { (world : World M C L P) (event : Event) (s : State M C L P)
        → IsOutcome world event s (happens world event s) }
{}
