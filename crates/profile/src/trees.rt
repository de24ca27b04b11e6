//! A step of proofs: in a module that agrees with the profile's types, the PDUs and the tokens have the trees of the profile. Its function
//! does nothing: its contract is the step.

ghost use Rattle.std.specs.Prelude.{ℕ};
ghost use Rattle.asn1_syntax.specs.declared.assignments.assignment.Syntax.{Syntax};
ghost use Rattle.asn1_defs.specs.Modules.{IsModule};
ghost use Rattle.message_defs.specs.profile_defs.Profile.{profile_types, f1ap_pdu, e1ap_pdu, xnap_pdu, core_pdu};
ghost use Rattle.message_defs.specs.profile_defs.Tokens.{rrc_token};
ghost use Rattle.message_defs.specs.profile_defs.Agreement.{Agrees};
ghost use Rattle.profile.specs.trees.Trees.{HasTree};

/// The type of a PDU's name, and that of a token's, is what the profile has. In version 2 whether an addition is OPTIONAL isn't
/// compared, so nothing is said of XnAP-PDU there.
pub fn agreeing_modules_have_the_trees()
    ensures f1 { (version : ℕ) (m : Syntax) → IsModule m → Agrees (profile_types version) m → HasTree m f1ap_pdu }
    ensures e1 { (version : ℕ) (m : Syntax) → IsModule m → Agrees (profile_types version) m → HasTree m e1ap_pdu }
    ensures xn { (m : Syntax) → IsModule m → Agrees (profile_types 1) m → HasTree m (xnap_pdu 1) }
    ensures core { (version : ℕ) (m : Syntax) → IsModule m → Agrees (profile_types version) m → HasTree m core_pdu }
    ensures token { (version : ℕ) (m : Syntax) → IsModule m → Agrees (profile_types version) m → HasTree m rrc_token }
{}
