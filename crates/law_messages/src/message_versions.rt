//! Laws of messages across the two versions of the profile. Each function does nothing: its contract is the law.

ghost use Rattle.std.specs.Prelude.{ℕ, List, ◌≡◌, Ok};
ghost use Rattle.message_types.specs.declared.xn.XnMessage.{XnMessage};
ghost use Rattle.aper_defs.specs.Values.{Value};
ghost use Rattle.aper_defs.specs.Spelling.{Spells};
ghost use Rattle.message_defs.specs.profile_defs.Profile.{xn_type};
ghost use Rattle.message_defs.specs.Xn.{written_xn, xn_from_value};
ghost use Rattle.law_messages.specs.message_versions.Versions.{without_origin};

/// What is written for a message in version 1 is spelled as in version 2, as the same value.
pub fn newer_versions_read_older_ones()
    ensures { (msg : XnMessage) (octets : List ℕ) → Spells (xn_type 1) (written_xn msg) octets
        → Spells (xn_type 2) (written_xn msg) octets }
{}

/// What is written for a message in version 2 is in version 1 the spelling of a value in which the message without its origin is heard.
pub fn older_versions_read_newer_ones()
    ensures { (msg : XnMessage) (octets : List ℕ) → Spells (xn_type 2) (written_xn msg) octets
        → (v : Value) × Spells (xn_type 1) v octets × (xn_from_value v ≡ Ok (without_origin msg)) }
{}
