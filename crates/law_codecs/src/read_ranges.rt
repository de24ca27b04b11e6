//! Laws of what is read of E1AP: it is in the ranges on which a CU-UP rests. Each function does nothing: its contract is the law.

ghost use Rattle.std.specs.Prelude.{◌≡◌, ℕ, List, [], Ok};
ghost use Rattle.gnb_types.specs.declared.names.NodeId.{NodeId};
ghost use Rattle.message_types.specs.declared.e1.E1Message.{E1Message};
ghost use Rattle.aper_defs.specs.Values.{Value};
ghost use Rattle.aper_defs.specs.Membership.{Has};
ghost use Rattle.message_defs.specs.profile_defs.Profile.{e1_type};
ghost use Rattle.message_defs.specs.E1.{e1_from_value};
ghost use Rattle.unit_defs.specs.octet_defs.Codec.{Codec};
ghost use Rattle.unit_defs.specs.codec_defs.Reading.{ReadsItems, ReadsPdus};
ghost use Rattle.unit_defs.specs.codec_range_defs.Ranges.{IsE1InRange, ReadsInRange};
ghost use Rattle.message_codec_defs.specs.Codecs.{read_between, profile_codec};
ghost use Rattle.message_codec_defs.specs.OctetCodecs.{SaysInOctets, ReadsOctets};
ghost use Rattle.law_codecs.specs.read_ranges.SameMessages.{HasMessagesOf};

/// A message that is heard in a value of E1AP-PDU, and so one that octets say, has 1 to 8 bearers, a quota of 4 to 4,096 packets, and at
/// most 4,096 bits in each SN status.
pub fn e1_messages_are_in_range()
    ensures from_value { (v : Value) (message : E1Message) → Has [] e1_type v → e1_from_value v ≡ Ok message
        → IsE1InRange message }
    ensures said { (octets : List ℕ) (message : E1Message) → SaysInOctets octets message → IsE1InRange message }
{}

/// A codec that reads as messages of E1AP what octets say meets what a CU-UP asks of one.
pub fn codecs_of_octets_read_in_range()
    ensures { (codec : Codec) → ReadsOctets codec → ReadsInRange codec }
{}

/// To each of them there is one with the same messages that reads items and PDUs as the layouts of links say: all that a CU-UP asks is met at
/// once.
pub fn codecs_of_octets_read_links()
    ensures { (given : Codec) → ReadsOctets given
        → (codec : Codec) × ReadsItems codec × ReadsPdus codec × ReadsInRange codec × HasMessagesOf given codec }
{}

/// The codec of the profile drops no message for its ranges: what it reads between two nodes is what octets say there.
pub fn nothing_is_dropped_for_its_ranges()
    ensures { (from to : NodeId) (octets : List ℕ)
        → profile_codec.read from to octets ≡ read_between from to octets }
{}
