//! Laws of codecs, and of the readers of links that a codec can have. Each function does nothing: its contract is the law.
#![tactic(auto)]

pub mod read_ranges;

ghost use Rattle.std.specs.Prelude.{◌≡◌, ◌↔◌, ℕ, List, Some, map};
ghost use Rattle.gnb_types.specs.declared.names.SnBits.{SnBits};
ghost use Rattle.pdcp.specs.Pdus.{Content};
ghost use Rattle.link_defs.specs.Decoding.{Link, Item, DecodesOn, CarriesPdu};
ghost use Rattle.link_defs.specs.read_defs.Pdus.{pdu_on};
ghost use Rattle.link_defs.specs.read_defs.Items.{item_on};
ghost use Rattle.unit_defs.specs.octet_defs.Codec.{Codec};
ghost use Rattle.unit_defs.specs.codec_defs.Reading.{ReadsItems, ReadsPdus};
ghost use Rattle.unit_defs.specs.codec_range_defs.Ranges.{ReadsInRange};
ghost use Rattle.law_codecs.specs.SameMessages.{ReadsAllInRange};
ghost use Rattle.law_codecs.specs.LinkRows.{item_rows, refused_item_rows, read_item, told_item, pdu_rows, refused_pdu_rows, read_pdu, told_pdu};

/// The readers of links find exactly what the layouts say.
pub fn readers_find_what_is_said()
    ensures items { (link : Link) (sn : SnBits) (item : Item) (octets : List ℕ)
        → DecodesOn link sn item octets ↔ (item_on link sn octets ≡ Some item) }
    ensures pdus { (sn : SnBits) (content : Content) (octets : List ℕ)
        → CarriesPdu sn content octets ↔ (pdu_on sn octets ≡ Some content) }
{}

/// Worked octets say what was worked out.
pub fn worked_octets()
    ensures items { map read_item item_rows ≡ map told_item item_rows }
    ensures no_items { map read_item refused_item_rows ≡ map told_item refused_item_rows }
    ensures pdus { map read_pdu pdu_rows ≡ map told_pdu pdu_rows }
    ensures no_pdus { map read_pdu refused_pdu_rows ≡ map told_pdu refused_pdu_rows }
{}

/// There is a codec that reads items of tunnels and PDUs of radios as the layouts of links say.
pub fn a_lawful_codec_exists()
    ensures { (codec : Codec) × ReadsItems codec × ReadsPdus codec }
{}

/// To each codec there is one that reads items and PDUs as the layouts of links say, and of messages those of the given one that are in the
/// ranges of the profile.
pub fn messages_in_range_are_read()
    ensures { (given : Codec) → (codec : Codec) × ReadsItems codec × ReadsPdus codec × ReadsInRange codec × ReadsAllInRange given codec }
{}
