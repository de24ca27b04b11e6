//! Laws of messages and tokens as values. Each function does nothing: its contract is the law.
#![tactic(auto)]

pub mod from_value_messages;
pub mod law_message_octets;
pub mod message_ranges;
pub mod message_refusals;
pub mod message_rows;
pub mod message_versions;
pub mod refused_messages;

ghost use Rattle.std.specs.Prelude.{ℕ, ◌≡◌, [], Ok};
ghost use Rattle.message_types.specs.declared.e1.E1Message.{E1Message};
ghost use Rattle.message_types.specs.declared.xn.XnMessage.{XnMessage};
ghost use Rattle.message_types.specs.declared.xn.CoreMessage.{CoreMessage};
ghost use Rattle.message_types.specs.declared.rrc.Token.{Token};
ghost use Rattle.aper_defs.specs.Values.{Value};
ghost use Rattle.aper_defs.specs.Membership.{Has};
ghost use Rattle.message_defs.specs.profile_defs.Profile.{f1_type, e1_type, xn_type, core_type, token_type};
ghost use Rattle.message_defs.specs.F1.{F1Message, written_f1, f1_from_value, SaysF1};
ghost use Rattle.message_defs.specs.E1.{written_e1, e1_from_value, SaysE1};
ghost use Rattle.message_defs.specs.Xn.{written_xn, xn_from_value, SaysXn};
ghost use Rattle.message_defs.specs.Core.{written_core, core_from_value, SaysCore};
ghost use Rattle.message_defs.specs.Tokens.{written_token, token_from_value, SaysToken};

/// What is written for a message is heard as that message.
pub fn written_messages_are_from_value()
    ensures f1 { (msg : F1Message) → f1_from_value (written_f1 msg) ≡ Ok msg }
    ensures e1 { (msg : E1Message) → e1_from_value (written_e1 msg) ≡ Ok msg }
    ensures xn { (msg : XnMessage) → xn_from_value (written_xn msg) ≡ Ok msg }
    ensures core { (msg : CoreMessage) → core_from_value (written_core msg) ≡ Ok msg }
    ensures token { (token : Token) → token_from_value (written_token token) ≡ Ok token }
{}

/// A value says one message at most.
pub fn a_value_says_one_message()
    ensures f1 { (a b : F1Message) (v : Value) → SaysF1 a v → SaysF1 b v → a ≡ b }
    ensures e1 { (a b : E1Message) (v : Value) → SaysE1 a v → SaysE1 b v → a ≡ b }
    ensures xn { (version : ℕ) (a b : XnMessage) (v : Value) → SaysXn version a v → SaysXn version b v → a ≡ b }
    ensures core { (a b : CoreMessage) (v : Value) → SaysCore a v → SaysCore b v → a ≡ b }
    ensures token { (a b : Token) (v : Value) → SaysToken a v → SaysToken b v → a ≡ b }
{}

/// What is written for a message says it, where it is a value of its type.
pub fn written_messages_are_said()
    ensures f1 { (msg : F1Message) → Has [] f1_type (written_f1 msg) → SaysF1 msg (written_f1 msg) }
    ensures e1 { (msg : E1Message) → Has [] e1_type (written_e1 msg) → SaysE1 msg (written_e1 msg) }
    ensures xn { (version : ℕ) (msg : XnMessage) → Has [] (xn_type version) (written_xn msg)
        → SaysXn version msg (written_xn msg) }
    ensures core { (msg : CoreMessage) → Has [] core_type (written_core msg) → SaysCore msg (written_core msg) }
    ensures token { (token : Token) → Has [] token_type (written_token token) → SaysToken token (written_token token) }
{}
