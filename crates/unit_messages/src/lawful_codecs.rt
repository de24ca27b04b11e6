//! Codecs that units rest on.

ghost use Rattle.unit_defs.specs.codec_defs.Reading.{ReadsItems, ReadsPdus};
ghost use Rattle.unit_defs.specs.codec_range_defs.Ranges.{ReadsInRange};

use crate::MessageCodec;

/// A codec that reads items of tunnels and PDUs of radios as the layouts of links say, and messages in the ranges of the profile.
pub trait LawfulCodec: MessageCodec {
    ghost reads_items: { ReadsItems Self.MessageCodec.codec };

    ghost reads_pdus: { ReadsPdus Self.MessageCodec.codec };

    ghost reads_in_range: { ReadsInRange Self.MessageCodec.codec };
}
