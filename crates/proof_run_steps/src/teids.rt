//! Laws of TEIDs: a node gives each once, ascending. Each function does nothing: its contract is the law.

ghost use Rattle.proof_run_steps.specs.steps.Reached.{reached};
ghost use Rattle.proof_run_steps.specs.teids.Given.{GivesTeids, GiveOnce};
ghost use Rattle.message_types.specs.declared.rrc.Token.{Token};
ghost use Rattle.run_defs.specs.Runs.{plain_world, Reading};
ghost use Rattle.run_defs.specs.States.{State};
ghost use Rattle.run_defs.specs.UnitRuns.{tables, unit_world};
ghost use Rattle.run_defs.specs.Written.{Written};
ghost use Rattle.scenario_text.specs.declared.event.Event.{Event};
ghost use Rattle.std.specs.Prelude.{List, Some, ℕ, ◌≡◌};
ghost use Rattle.unit_defs.specs.CuUp.{cu_up_acts};
ghost use Rattle.unit_defs.specs.Du.{Du, du_acts};
ghost use Rattle.unit_defs.specs.CuUpRecords.{CuUp};
ghost use Rattle.unit_defs.specs.octet_defs.Codec.{Codec};
ghost use Rattle.unit_defs.specs.Ways.{Input, Load, Message, Pdu, Way};

/// What a CU-UP opens on any input, in any state, are its next TEIDs, ascending; the next ones are never lowered; and a
/// TEID that is open afterwards was open before, as the same one's, or is one of those.
pub fn a_cu_up_gives_the_next_teids<M, C, P>()
    ensures { (way : Way M C P) (r : CuUp M C) (input : Input C P)
        → GivesTeids (λ u. u.next_teid) (λ u. u.tunnels) r (cu_up_acts way r input) }
{}

/// The same of a DU.
pub fn a_du_gives_the_next_teids<M, C, P>()
    ensures { (way : Way M C P) (r : Du M C) (input : Input C P)
        → GivesTeids (λ u. u.next_teid) (λ u. u.tunnels) r (du_acts way r input) }
{}

/// In every run, from every state: a TEID that is open at a CU-UP or DU later was open there before, as the same one's, or
/// was not given before; and no TEID that was given is given again. So it is in the run of units that do what the tables say
/// after decoding.
pub fn a_teid_is_given_once()
    ensures run { (reading : Reading) (events : List Event)
        (s t : State (Message Token) Token (Written (Load Pdu)) (Written Pdu))
        → reached (plain_world reading) events s ≡ Some t → GiveOnce s.units t.units }
    ensures units { (codec : Codec) (events : List Event)
        (s t : State (List ℕ) (List ℕ) (List ℕ) (List ℕ))
        → reached (unit_world codec (tables codec)) events s ≡ Some t → GiveOnce s.units t.units }
{}
