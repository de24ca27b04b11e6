//! Laws of refused events. Each function does nothing: its contract is the law.

ghost use Rattle.proof_run_steps.specs.refusals.Refusals.{StaysWhereRefused};
ghost use Rattle.message_types.specs.declared.rrc.Token.{Token};
ghost use Rattle.run_defs.specs.Runs.{happens, plain_world, Reading};
ghost use Rattle.run_defs.specs.States.{State};
ghost use Rattle.run_defs.specs.UnitRuns.{Meaning, unit_world};
ghost use Rattle.run_defs.specs.Written.{Written};
ghost use Rattle.scenario_text.specs.declared.event.Event.TheVariants.{Start};
ghost use Rattle.scenario_text.specs.declared.event.Event.{Event};
ghost use Rattle.std.specs.Prelude.{List, true, ℕ, ◌≡◌};
ghost use Rattle.unit_defs.specs.Ways.{Load, Message, Pdu};
ghost use Rattle.unit_defs.specs.octet_defs.Codec.{Codec};

/// From every state an event that is refused leaves the state as it was. Units of any meaning could hold or refuse a first
/// start, which counts as given all the same.
pub fn refused_events_change_nothing()
    ensures run { (reading : Reading) (event : Event)
        (s : State (Message Token) Token (Written (Load Pdu)) (Written Pdu))
        → StaysWhereRefused s (happens (plain_world reading) event s) }
    ensures units { (codec : Codec) (answer : Meaning) (event : Event)
        (s : State (List ℕ) (List ℕ) (List ℕ) (List ℕ))
        → (event ≡ Start → s.started ≡ true)
        → StaysWhereRefused s (happens (unit_world codec answer) event s) }
{}
