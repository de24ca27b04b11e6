//! Laws of messages as octets: what is answered to octets is fixed by what they spell. Each function does nothing: its contract is the law.

ghost use Rattle.std.specs.Prelude.{◌≡◌, ℕ, List, Result, Ok, None};
ghost use Rattle.message_types.specs.declared.e1.E1Message.{E1Message};
ghost use Rattle.message_types.specs.declared.xn.XnMessage.{XnMessage};
ghost use Rattle.message_types.specs.declared.xn.CoreMessage.{CoreMessage};
ghost use Rattle.message_types.specs.declared.rrc.Token.{Token};
ghost use Rattle.aper_defs.specs.Values.{Value};
ghost use Rattle.aper_defs.specs.Spelling.{Spells};
ghost use Rattle.profile.specs.declared.version.Version.{Version};
ghost use Rattle.profile.specs.Versions.{number_of};
ghost use Rattle.message_defs.specs.profile_defs.Profile.{f1_type, e1_type, xn_type, core_type, token_type};
ghost use Rattle.message_defs.specs.profile_defs.Messages.{f1_messages, e1_messages, xn_messages, core_messages};
ghost use Rattle.message_defs.specs.FromValue.{rejected_in};
ghost use Rattle.message_defs.specs.F1.{F1Message, written_f1, f1_from_value, SaysF1};
ghost use Rattle.message_defs.specs.E1.{written_e1, e1_from_value, SaysE1};
ghost use Rattle.message_defs.specs.Xn.{written_xn, xn_from_value, SaysXn};
ghost use Rattle.message_defs.specs.Core.{written_core, core_from_value, SaysCore};
ghost use Rattle.message_defs.specs.Tokens.{written_token, token_from_value, SaysToken};
ghost use Rattle.message_octets.specs.declared.error.MsgError.{MsgError};
ghost use Rattle.message_octets.specs.Answers.{IsFromValueIn};
ghost use Rattle.message_octets.specs.Reading.{read_as};
ghost use Rattle.law_messages.specs.message_versions.Versions.{without_origin};
ghost use Rattle.law_messages.specs.law_message_octets.Answered.{IsUnlessMemory, IsRefusal, SpellsNone, AreSaidIn, IsMessageWhereSaid, answer_of, IsFoundIn};

/// To octets that spell a value the answer is what is heard in it, unless memory runs out.
pub fn what_octets_say_is_answered()
    ensures f1 { (v : Value) (octets : List ℕ) (result : Result F1Message MsgError) → Spells f1_type v octets
        → IsFromValueIn f1_type f1_from_value octets result → IsUnlessMemory result (answer_of (f1_from_value v)) }
    ensures e1 { (v : Value) (octets : List ℕ) (result : Result E1Message MsgError) → Spells e1_type v octets
        → IsFromValueIn e1_type e1_from_value octets result → IsUnlessMemory result (answer_of (e1_from_value v)) }
    ensures xn { (w : Version) (v : Value) (octets : List ℕ) (result : Result XnMessage MsgError) → Spells (xn_type (number_of w)) v octets
        → IsFromValueIn (xn_type (number_of w)) xn_from_value octets result → IsUnlessMemory result (answer_of (xn_from_value v)) }
    ensures core { (v : Value) (octets : List ℕ) (result : Result CoreMessage MsgError) → Spells core_type v octets
        → IsFromValueIn core_type core_from_value octets result → IsUnlessMemory result (answer_of (core_from_value v)) }
    ensures token { (v : Value) (octets : List ℕ) (result : Result Token MsgError) → Spells token_type v octets
        → IsFromValueIn token_type token_from_value octets result → IsUnlessMemory result (answer_of (token_from_value v)) }
{}

/// Octets that spell no value are refused, unless memory runs out.
pub fn what_spells_nothing_is_refused()
    ensures f1 { (octets : List ℕ) (result : Result F1Message MsgError) → SpellsNone f1_type octets
        → IsFromValueIn f1_type f1_from_value octets result → IsRefusal result }
    ensures e1 { (octets : List ℕ) (result : Result E1Message MsgError) → SpellsNone e1_type octets
        → IsFromValueIn e1_type e1_from_value octets result → IsRefusal result }
    ensures xn { (version : ℕ) (octets : List ℕ) (result : Result XnMessage MsgError) → SpellsNone (xn_type version) octets
        → IsFromValueIn (xn_type version) xn_from_value octets result → IsRefusal result }
    ensures core { (octets : List ℕ) (result : Result CoreMessage MsgError) → SpellsNone core_type octets
        → IsFromValueIn core_type core_from_value octets result → IsRefusal result }
    ensures token { (octets : List ℕ) (result : Result Token MsgError) → SpellsNone token_type octets
        → IsFromValueIn token_type token_from_value octets result → IsRefusal result }
{}

/// What is written for a message is read as the message, unless memory runs out.
pub fn written_messages_are_read()
    ensures f1 { (msg : F1Message) (octets : List ℕ) (result : Result F1Message MsgError) → Spells f1_type (written_f1 msg) octets
        → IsFromValueIn f1_type f1_from_value octets result → IsUnlessMemory result (Ok msg) }
    ensures e1 { (msg : E1Message) (octets : List ℕ) (result : Result E1Message MsgError) → Spells e1_type (written_e1 msg) octets
        → IsFromValueIn e1_type e1_from_value octets result → IsUnlessMemory result (Ok msg) }
    ensures xn { (w : Version) (msg : XnMessage) (octets : List ℕ) (result : Result XnMessage MsgError)
        → Spells (xn_type (number_of w)) (written_xn msg) octets
        → IsFromValueIn (xn_type (number_of w)) xn_from_value octets result → IsUnlessMemory result (Ok msg) }
    ensures core { (msg : CoreMessage) (octets : List ℕ) (result : Result CoreMessage MsgError) → Spells core_type (written_core msg) octets
        → IsFromValueIn core_type core_from_value octets result → IsUnlessMemory result (Ok msg) }
    ensures token { (token : Token) (octets : List ℕ) (result : Result Token MsgError) → Spells token_type (written_token token) octets
        → IsFromValueIn token_type token_from_value octets result → IsUnlessMemory result (Ok token) }
{}

/// The octets of a message are no other's.
pub fn octets_are_of_one_message()
    ensures f1 { (a b : F1Message) (octets : List ℕ) → Spells f1_type (written_f1 a) octets → Spells f1_type (written_f1 b) octets → a ≡ b }
    ensures e1 { (a b : E1Message) (octets : List ℕ) → Spells e1_type (written_e1 a) octets → Spells e1_type (written_e1 b) octets → a ≡ b }
    ensures xn { (w : Version) (a b : XnMessage) (octets : List ℕ) → Spells (xn_type (number_of w)) (written_xn a) octets
        → Spells (xn_type (number_of w)) (written_xn b) octets → a ≡ b }
    ensures core { (a b : CoreMessage) (octets : List ℕ) → Spells core_type (written_core a) octets
        → Spells core_type (written_core b) octets → a ≡ b }
    ensures token { (a b : Token) (octets : List ℕ) → Spells token_type (written_token a) octets
        → Spells token_type (written_token b) octets → a ≡ b }
{}

/// Under version 1 of the profile, what was written under version 2 is read as the message without its origin; under version 2, what was
/// written under version 1 is read as the message; unless memory runs out.
pub fn other_versions_are_read()
    ensures older { (msg : XnMessage) (octets : List ℕ) (result : Result XnMessage MsgError) → Spells (xn_type 2) (written_xn msg) octets
        → IsFromValueIn (xn_type 1) xn_from_value octets result → IsUnlessMemory result (Ok (without_origin msg)) }
    ensures newer { (msg : XnMessage) (octets : List ℕ) (result : Result XnMessage MsgError) → Spells (xn_type 1) (written_xn msg) octets
        → IsFromValueIn (xn_type 2) xn_from_value octets result → IsUnlessMemory result (Ok msg) }
{}

/// A message is answered exactly where octets spell a value that says it and of which no information element is to be rejected, unless
/// memory runs out.
pub fn said_messages_are_answered()
    ensures f1 { (msg : F1Message) (octets : List ℕ) → IsMessageWhereSaid F1Message (IsFromValueIn f1_type f1_from_value octets) msg
        (AreSaidIn f1_type SaysF1 (rejected_in f1_messages) msg octets) }
    ensures e1 { (msg : E1Message) (octets : List ℕ) → IsMessageWhereSaid E1Message (IsFromValueIn e1_type e1_from_value octets) msg
        (AreSaidIn e1_type SaysE1 (rejected_in e1_messages) msg octets) }
    ensures xn { (w : Version) (msg : XnMessage) (octets : List ℕ)
        → IsMessageWhereSaid XnMessage (IsFromValueIn (xn_type (number_of w)) xn_from_value octets) msg
        (AreSaidIn (xn_type (number_of w)) (SaysXn (number_of w)) (rejected_in (xn_messages (number_of w))) msg octets) }
    ensures core { (msg : CoreMessage) (octets : List ℕ) → IsMessageWhereSaid CoreMessage (IsFromValueIn core_type core_from_value octets) msg
        (AreSaidIn core_type SaysCore (rejected_in core_messages) msg octets) }
    ensures token { (token : Token) (octets : List ℕ) → IsMessageWhereSaid Token (IsFromValueIn token_type token_from_value octets) token
        (AreSaidIn token_type SaysToken (λ v. None) token octets) }
{}

/// A message that a unit reads in octets is heard in the value that is found in them.
pub fn read_messages_are_from_value()
    ensures f1 { (msg : F1Message) (octets : List ℕ) → read_as f1_type f1_from_value octets ≡ Ok msg
        → IsFoundIn f1_type f1_from_value msg octets }
    ensures e1 { (msg : E1Message) (octets : List ℕ) → read_as e1_type e1_from_value octets ≡ Ok msg
        → IsFoundIn e1_type e1_from_value msg octets }
    ensures xn { (w : Version) (msg : XnMessage) (octets : List ℕ) → read_as (xn_type (number_of w)) xn_from_value octets ≡ Ok msg
        → IsFoundIn (xn_type (number_of w)) xn_from_value msg octets }
    ensures core { (msg : CoreMessage) (octets : List ℕ) → read_as core_type core_from_value octets ≡ Ok msg
        → IsFoundIn core_type core_from_value msg octets }
    ensures token { (token : Token) (octets : List ℕ) → read_as token_type token_from_value octets ≡ Ok token
        → IsFoundIn token_type token_from_value token octets }
{}
