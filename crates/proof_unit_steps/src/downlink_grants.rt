//! A law of the downlink TEIDs that a DU gives. Each function does nothing: its contract is the law.

ghost use Rattle.proof_unit_steps.specs.downlink_grants.Grants.{DuGoes, DuKeeps, NoAnswer};
ghost use Rattle.proof_unit_steps.specs.downlink_names.Places.{DownlinkTeid, Story};
ghost use Rattle.std.specs.Prelude.{◌≡◌};
ghost use Rattle.unit_defs.specs.Du.{Du, du_acts};
ghost use Rattle.unit_defs.specs.Ways.{Input, Message, Way};

/// Of one TEID of a DU: where all its answers that name the TEID are to one request, for one bearer, and none names it that it
/// has yet to give, so it is after any input. It is given by at most one answer, and so named by no other.
pub fn a_du_gives_a_downlink_once<C, P>()
    ensures { (way : Way (Message C) C P) → ((m : Message C) → way.encode m ≡ m) → ((c : C) → NoAnswer (way.pass c))
        → (t : DownlinkTeid) (s : Story) (r : Du (Message C) C) (input : Input C P) → DuKeeps t s r → DuGoes t s (du_acts way r input) }
{}
