//! Laws of what receivers store in every run. Each function does nothing: its contract is the law.

ghost use Rattle.proof_run_steps.specs.receivers.AllReady.{AreReady};
ghost use Rattle.proof_run_steps.specs.steps.Reached.{reached};
ghost use Rattle.message_types.specs.declared.rrc.Token.{Token};
ghost use Rattle.run_defs.specs.Runs.{plain_world, Reading};
ghost use Rattle.run_defs.specs.States.{new_state, State};
ghost use Rattle.run_defs.specs.UnitRuns.{tables, unit_world};
ghost use Rattle.run_defs.specs.Written.{Written};
ghost use Rattle.scenario_text.specs.declared.event.Event.{Event};
ghost use Rattle.std.specs.Prelude.{List, Some, ℕ, ◌≡◌};
ghost use Rattle.unit_defs.specs.Ways.{Load, Message, Pdu};
ghost use Rattle.unit_defs.specs.octet_defs.Codec.{Codec};

/// In every run, at each CU-UP and each terminal, what a receiver stores is above what it awaits, as `proof_unit_steps::receivers` says; and so
/// on from any state in which it is so; and in the run of units that do what the tables say after decoding.
pub fn receivers_store_what_is_above()
    ensures run { (reading : Reading) (events : List Event)
        (t : State (Message Token) Token (Written (Load Pdu)) (Written Pdu))
        → reached (plain_world reading) events new_state ≡ Some t → AreReady t.units }
    ensures on { (reading : Reading) (events : List Event)
        (s t : State (Message Token) Token (Written (Load Pdu)) (Written Pdu)) → AreReady s.units
        → reached (plain_world reading) events s ≡ Some t → AreReady t.units }
    ensures units { (codec : Codec) (events : List Event)
        (t : State (List ℕ) (List ℕ) (List ℕ) (List ℕ))
        → reached (unit_world codec (tables codec)) events new_state ≡ Some t → AreReady t.units }
{}
