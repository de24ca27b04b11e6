//! Which octets are the one spelling of a control message, by the codec of the profile.
#![tactic(auto)]

ghost use Rattle.std.specs.Prelude.{◌≡◌, ◌↔◌, IfOk, IsTrue};
ghost use Rattle.message_spellings.specs.inside.Spelled.{IsSpelledBetween, IsSpelledSomewhere};

use gnb_types::items::Memory;
use gnb_types::names::{Gnb, NodeId};
use message_codec::ProfileCodec;
use std::alloc::Global;
use std::marker::Model;
use transcript_check::spells::Spells;
use unit_messages::{MessageCodec, encoded};

const CU_CP: NodeId = NodeId::CuCp(Gnb::A);

const CU_UP: NodeId = NodeId::CuUp(Gnb::A, 1);

const DU: NodeId = NodeId::Du(Gnb::A, 1);

const UE: NodeId = NodeId::Ue(1);

/// Judges by the profile of a codec. Contracts see the profile.
#[derive(Drop)]
pub struct ProfileSpellings {
    codec: ProfileCodec,
}

impl Model for ProfileSpellings {
    ghost use Rattle.profile.specs.profile_module.Profiles.{ProfileAt};

    ghost Value = { ProfileAt };

    ghost view = { λ s. s.codec };
}

impl ProfileSpellings {
    /// Judges by the profile of this codec.
    pub fn of(codec: ProfileCodec) -> ProfileSpellings
        ensures { result ≡ codec }
    {
        ProfileSpellings { codec }
    }

    /// Whether octets are read as a message between two nodes, and are what is spelled for it. Octets that are read need not be the
    /// one spelling: a reader passes over elements and additions that it doesn't know.
    fn is_spelled_between(
        &self,
        alloc: Global,
        from: NodeId,
        to: NodeId,
        octets: &[u8],
    ) -> Result<bool, Memory>
        ensures { IfOk result (λ is. IsTrue is ↔ IsSpelledBetween from to octets.now) }
    {
        match self.codec.read(alloc, from, to, octets)? {
            Ok(message) => {
                let spelling = encoded(alloc, &self.codec, message)?;
                Ok(spelling.as_slice() == octets)
            }
            Err(_) => Ok(false),
        }
    }

    /// The same of any interface: F1, E1, Xn, that of the core, and RRC.
    fn is_spelled_somewhere(&self, alloc: Global, octets: &[u8]) -> Result<bool, Memory>
        ensures { IfOk result (λ is. IsTrue is ↔ IsSpelledSomewhere octets.now) }
    {
        Ok(
            self.is_spelled_between(alloc, CU_CP, DU, octets)?
                || self.is_spelled_between(alloc, CU_CP, CU_UP, octets)?
                || self.is_spelled_between(alloc, CU_CP, CU_CP, octets)?
                || self.is_spelled_between(alloc, CU_CP, NodeId::Core, octets)?
                || self.is_spelled_between(alloc, UE, DU, octets)?,
        )
    }
}

impl Spells for ProfileSpellings {
    ghost use Rattle.message_codec_defs.specs.Codecs.{octets_of_message};

    ghost spelling = { λ s. octets_of_message };

    fn is_spelling(
        &self,
        alloc: Global,
        from: NodeId,
        to: NodeId,
        octets: &[u8],
    ) -> Result<bool, Memory> {
        // No octets are what is spelled for a message that has no spelling.
        if octets.is_empty() {
            return Ok(true);
        }
        if self.is_spelled_between(alloc, from, to, octets)? {
            return Ok(true);
        }
        self.is_spelled_somewhere(alloc, octets)
    }
}
