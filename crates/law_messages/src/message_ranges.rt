//! Laws of the profile's ranges. Each function does nothing: its contract is the law.

ghost use Rattle.std.specs.Prelude.{ℕ, []};
ghost use Rattle.message_types.specs.declared.e1.E1Message.{E1Message};
ghost use Rattle.message_types.specs.declared.xn.XnMessage.{XnMessage};
ghost use Rattle.message_types.specs.declared.xn.CoreMessage.{CoreMessage};
ghost use Rattle.aper_defs.specs.Membership.{Has};
ghost use Rattle.aper_defs.specs.Bounds.{IsBounded};
ghost use Rattle.message_defs.specs.profile_defs.Profile.{f1_type, e1_type, xn_type, core_type, token_type};
ghost use Rattle.message_defs.specs.F1.{F1Message, written_f1};
ghost use Rattle.message_defs.specs.E1.{written_e1};
ghost use Rattle.message_defs.specs.Xn.{written_xn};
ghost use Rattle.message_defs.specs.Core.{written_core};
ghost use Rattle.law_messages.specs.message_ranges.Ranges.{InRangeF1, InRangeE1, InRangeXn, InRangeCore};

/// What is written for a message whose fields lie in their ranges is a value of its type.
pub fn messages_in_range_are_values()
    ensures f1 { (msg : F1Message) → InRangeF1 msg → Has [] f1_type (written_f1 msg) }
    ensures e1 { (msg : E1Message) → InRangeE1 msg → Has [] e1_type (written_e1 msg) }
    ensures xn { (version : ℕ) (msg : XnMessage) → InRangeXn version msg → Has [] (xn_type version) (written_xn msg) }
    ensures core { (msg : CoreMessage) → InRangeCore msg → Has [] core_type (written_core msg) }
{}

/// The types of PDUs and tokens are within the bounds of encodings, in both versions.
pub fn profile_types_are_bounded()
    ensures f1 { IsBounded f1_type }
    ensures e1 { IsBounded e1_type }
    ensures xn { IsBounded (xn_type 1) }
    ensures xn_2 { IsBounded (xn_type 2) }
    ensures core { IsBounded core_type }
    ensures token { IsBounded token_type }
{}
