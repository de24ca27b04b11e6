//! Laws: what is heard in a value of a PDU or of a token is the message that the value says. Each function does nothing: its contract is the law.

ghost use Rattle.std.specs.Prelude.{◌≡◌, ℕ, [], Ok};
ghost use Rattle.message_types.specs.declared.e1.E1Message.{E1Message};
ghost use Rattle.message_types.specs.declared.xn.XnMessage.{XnMessage};
ghost use Rattle.message_types.specs.declared.xn.CoreMessage.{CoreMessage};
ghost use Rattle.message_types.specs.declared.rrc.Token.{Token};
ghost use Rattle.aper_defs.specs.Values.{Value};
ghost use Rattle.aper_defs.specs.Membership.{Has};
ghost use Rattle.message_defs.specs.profile_defs.Profile.{f1_type, e1_type, xn_type, core_type, token_type};
ghost use Rattle.message_defs.specs.profile_defs.Messages.{f1_messages, e1_messages, xn_messages, core_messages};
ghost use Rattle.message_defs.specs.FromValue.{rejected_in, unless_rejected};
ghost use Rattle.message_defs.specs.F1.{F1Message, f1_from_value, SaysF1};
ghost use Rattle.message_defs.specs.E1.{e1_from_value, SaysE1};
ghost use Rattle.message_defs.specs.Xn.{xn_from_value, SaysXn};
ghost use Rattle.message_defs.specs.Core.{core_from_value, SaysCore};
ghost use Rattle.message_defs.specs.Tokens.{token_from_value, SaysToken};

/// A value of a PDU says the message that is heard in it.
pub fn from_value_messages_are_said()
    ensures f1 { (msg : F1Message) (v : Value) → Has [] f1_type v → f1_from_value v ≡ Ok msg → SaysF1 msg v }
    ensures e1 { (msg : E1Message) (v : Value) → Has [] e1_type v → e1_from_value v ≡ Ok msg → SaysE1 msg v }
    ensures xn { (version : ℕ) (msg : XnMessage) (v : Value) → Has [] (xn_type version) v
        → xn_from_value v ≡ Ok msg → SaysXn version msg v }
    ensures core { (msg : CoreMessage) (v : Value) → Has [] core_type v → core_from_value v ≡ Ok msg → SaysCore msg v }
    ensures token { (token : Token) (v : Value) → Has [] token_type v → token_from_value v ≡ Ok token → SaysToken token v }
{}

/// The message that a value says is heard in it, unless one of its information elements is to be rejected.
pub fn said_messages_are_from_value()
    ensures f1 { (msg : F1Message) (v : Value) → SaysF1 msg v
        → f1_from_value v ≡ unless_rejected (rejected_in f1_messages v) msg }
    ensures e1 { (msg : E1Message) (v : Value) → SaysE1 msg v
        → e1_from_value v ≡ unless_rejected (rejected_in e1_messages v) msg }
    ensures xn { (version : ℕ) (msg : XnMessage) (v : Value) → SaysXn version msg v
        → xn_from_value v ≡ unless_rejected (rejected_in (xn_messages version) v) msg }
    ensures core { (msg : CoreMessage) (v : Value) → SaysCore msg v
        → core_from_value v ≡ unless_rejected (rejected_in core_messages v) msg }
    ensures token { (token : Token) (v : Value) → SaysToken token v → token_from_value v ≡ Ok token }
{}
