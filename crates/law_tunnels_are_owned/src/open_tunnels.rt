//! Laws of open tunnels. Each function does nothing: its contract is the law.

ghost use Rattle.law_tunnels_are_owned.specs.open_tunnels.Open.{ShowsFrom, StandWhereOpen};
ghost use Rattle.proof_run_steps.specs.steps.Reached.{reached};
ghost use Rattle.message_types.specs.declared.rrc.Token.{Token};
ghost use Rattle.run_defs.specs.Runs.{plain_world, Reading};
ghost use Rattle.run_defs.specs.States.{new_state, State};
ghost use Rattle.run_defs.specs.UnitRuns.{tables, unit_world};
ghost use Rattle.run_defs.specs.Written.{Written};
ghost use Rattle.scenario_text.specs.declared.event.Event.{Event};
ghost use Rattle.std.specs.Prelude.{List, Some, ℕ, ◌≡◌};
ghost use Rattle.unit_defs.specs.CuUp.{cu_up_acts};
ghost use Rattle.unit_defs.specs.Du.{Du, du_acts};
ghost use Rattle.unit_defs.specs.CuUpRecords.{CuUp};
ghost use Rattle.unit_defs.specs.octet_defs.Codec.{Codec};
ghost use Rattle.unit_defs.specs.Ways.{Input, Load, Message, Pdu, Way};

/// On any input, in any state: the TEIDs that are open at a CU-UP afterwards are those that were open before, with those that
/// it reports as opened and without those that it reports as closed, in their order.
pub fn a_cu_up_shows_what_it_opens<M, C, P>()
    ensures { (way : Way M C P) (r : CuUp M C) (input : Input C P)
        → ShowsFrom (λ u. u.tunnels) r.tunnels (cu_up_acts way r input) }
{}

/// The same of a DU.
pub fn a_du_shows_what_it_opens<M, C, P>()
    ensures { (way : Way M C P) (r : Du M C) (input : Input C P)
        → ShowsFrom (λ u. u.tunnels) r.tunnels (du_acts way r input) }
{}

/// In every run a tunnel ends at a CU-UP, and at a DU, exactly where its TEID is open there; and so on from any state in which
/// it is so. So it is in the run of units that do what the tables say after decoding.
pub fn tunnels_are_those_of_open_teids()
    ensures run { (reading : Reading) (events : List Event)
        (t : State (Message Token) Token (Written (Load Pdu)) (Written Pdu))
        → reached (plain_world reading) events new_state ≡ Some t → StandWhereOpen t }
    ensures on { (reading : Reading) (events : List Event)
        (s t : State (Message Token) Token (Written (Load Pdu)) (Written Pdu)) → StandWhereOpen s
        → reached (plain_world reading) events s ≡ Some t → StandWhereOpen t }
    ensures units { (codec : Codec) (events : List Event)
        (t : State (List ℕ) (List ℕ) (List ℕ) (List ℕ))
        → reached (unit_world codec (tables codec)) events new_state ≡ Some t → StandWhereOpen t }
{}
