//! Laws of the owners of tunnels. Each function does nothing: its contract is the law.

ghost use Rattle.proof_run_steps.specs.steps.Reached.{reached};
ghost use Rattle.law_tunnels_are_owned.specs.owner_facts.Owned.{cu_up_names, du_names, CuUpOwns, DuOwns, AreOwned};
ghost use Rattle.proof_unit_steps.specs.answers.After.{HoldsAfter};
ghost use Rattle.message_types.specs.declared.rrc.Token.{Token};
ghost use Rattle.run_defs.specs.Runs.{plain_world, Reading};
ghost use Rattle.run_defs.specs.States.{new_state, State};
ghost use Rattle.run_defs.specs.UnitRuns.{tables, unit_world};
ghost use Rattle.run_defs.specs.Written.{Written};
ghost use Rattle.scenario_text.specs.declared.event.Event.{Event};
ghost use Rattle.std.specs.Prelude.{List, Some, ℕ, ◌≡◌, true};
ghost use Rattle.unit_defs.specs.CuUp.{cu_up_acts};
ghost use Rattle.unit_defs.specs.Du.{Du, DuTunnel, du_acts};
ghost use Rattle.unit_defs.specs.CuUpRecords.{CuUp, CuUpTunnel};
ghost use Rattle.unit_defs.specs.octet_defs.Codec.{Codec};
ghost use Rattle.unit_defs.specs.Ways.{Input, Load, Message, Pdu, Way};

/// A CU-UP whose open TEIDs are those that its contexts name, each for one context, bearer and kind, is such a one after any
/// input; so no TEID is ever named twice.
pub fn a_cu_up_keeps_owners<M, C, P>()
    ensures keeps { (way : Way M C P) (r : CuUp M C) (input : Input C P)
        → CuUpOwns r → HoldsAfter CuUpOwns (cu_up_acts way r input) }
    ensures once { (r : CuUp M C) → CuUpOwns r → (teid : ℕ) (a b : CuUpTunnel)
        → cu_up_names r.contexts a teid ≡ true → cu_up_names r.contexts b teid ≡ true → a ≡ b }
{}

/// The same of a DU.
pub fn a_du_keeps_owners<M, C, P>()
    ensures keeps { (way : Way M C P) (r : Du M C) (input : Input C P)
        → DuOwns r → HoldsAfter DuOwns (du_acts way r input) }
    ensures once { (r : Du M C) → DuOwns r → (teid : ℕ) (a b : DuTunnel)
        → du_names r.contexts a teid ≡ true → du_names r.contexts b teid ≡ true → a ≡ b }
{}

/// In every run the open TEIDs of each CU-UP and each DU are exactly those that its contexts name, each for one context, bearer
/// and kind, and each was given; and so on from any state in which it is so. So it is in the run of units that do what the
/// tables say after decoding.
pub fn tunnels_have_owners()
    ensures run { (reading : Reading) (events : List Event)
        (t : State (Message Token) Token (Written (Load Pdu)) (Written Pdu))
        → reached (plain_world reading) events new_state ≡ Some t → AreOwned t.units }
    ensures on { (reading : Reading) (events : List Event)
        (s t : State (Message Token) Token (Written (Load Pdu)) (Written Pdu)) → AreOwned s.units
        → reached (plain_world reading) events s ≡ Some t → AreOwned t.units }
    ensures units { (codec : Codec) (events : List Event)
        (t : State (List ℕ) (List ℕ) (List ℕ) (List ℕ))
        → reached (unit_world codec (tables codec)) events new_state ≡ Some t → AreOwned t.units }
{}
