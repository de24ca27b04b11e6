//! The codec.

ghost use Rattle.std.specs.Prelude.{◌≡◌, IfOk};
ghost use Rattle.profile.specs.declared.version.Version.TheVariants.{One};
ghost use Rattle.profile.specs.profile_module.Profiles.{IsBuiltin};
ghost use Rattle.message_codec_defs.specs.Codecs.{read_between};
ghost use Rattle.unit_messages.specs.Messages.{answer_as};

use crate::encoding::{spell_core, spell_e1, spell_f1, spell_token, spell_xn};
use crate::reading::{read_core, read_e1, read_f1, read_rrc, read_xn, token_in};
use gnb_types::names::NodeId;
use gnb_types::octets::{Memory, Octets};
use gnb_types::reasons::DropReason;
use message_types::Token;
use profile::profile_module::{Profile, builtin};
use std::alloc::Global;
use std::marker::Model;
use unit_messages::lawful_codecs::LawfulCodec;
use unit_messages::{Message, MessageCodec};

/// Messages as octets, by a profile of version 1. Contracts see the profile.
#[derive(Drop)]
pub struct ProfileCodec {
    profile: Profile,
}

impl Model for ProfileCodec {
    ghost use Rattle.std.specs.Prelude.{◌≡◌};
    ghost use Rattle.profile.specs.declared.version.Version.TheVariants.{One};
    ghost use Rattle.profile.specs.profile_module.Profiles.{ProfileAt};

    ghost Value = { ProfileAt };

    ghost view = { λ c. c.profile };

    ghost invariant = { λ c. c.profile.version ≡ One };
}

impl ProfileCodec {
    /// The codec of the profile's own module.
    pub fn new(alloc: Global) -> Result<ProfileCodec, Memory>
        ensures { IfOk result (λ codec. IsBuiltin One codec) }
    {
        let profile = builtin(alloc)?;
        Ok(ProfileCodec { profile })
    }

    /// The codec of a module that was read and is the profile's, as `agrees` of `profile::profile_module` answers it.
    pub fn of(profile: Profile) -> ProfileCodec
        requires { profile.version ≡ One }
        ensures { result ≡ profile }
    {
        ProfileCodec { profile }
    }

    /// The profile.
    pub fn profile(&self) -> &Profile
        ensures { result.now ≡ self.now }
    {
        &self.profile
    }

    /// The message that octets say on the interface between two nodes, or why they are dropped.
    fn read_between(
        &self,
        alloc: Global,
        from: NodeId,
        to: NodeId,
        octets: &[u8],
    ) -> Result<Result<Message, DropReason>, Memory>
        ensures { IfOk result (λ answer. answer_as answer ≡ read_between from to octets.now) }
    {
        match (from, to) {
            (NodeId::CuCp(_), NodeId::Du(_, _)) | (NodeId::Du(_, _), NodeId::CuCp(_)) => {
                read_f1(alloc, &self.profile, octets)
            }
            (NodeId::CuCp(_), NodeId::CuUp(_, _)) | (NodeId::CuUp(_, _), NodeId::CuCp(_)) => {
                read_e1(alloc, &self.profile, octets)
            }
            (NodeId::CuCp(_), NodeId::CuCp(_)) => read_xn(alloc, &self.profile, octets),
            (NodeId::CuCp(_), NodeId::Core) | (NodeId::Core, NodeId::CuCp(_)) => {
                read_core(alloc, &self.profile, octets)
            }
            (NodeId::Ue(_), NodeId::Du(_, _)) | (NodeId::Du(_, _), NodeId::Ue(_)) => {
                read_rrc(alloc, &self.profile, octets)
            }
            _ => Ok(Err(DropReason::Unexpected)),
        }
    }
}

impl MessageCodec for ProfileCodec {
    ghost use Rattle.message_codec_defs.specs.Codecs.{profile_codec};

    ghost codec = { profile_codec };

    fn encode(&self, alloc: Global, message: &Message) -> Result<Octets, Memory> {
        match message {
            Message::F1(message) => spell_f1(alloc, &self.profile, message),
            Message::E1(message) => spell_e1(alloc, &self.profile, message),
            Message::Xn(message) => spell_xn(alloc, &self.profile, message),
            Message::Core(message) => spell_core(alloc, &self.profile, message),
            Message::Rrc(token) => spell_token(alloc, &self.profile, *token),
        }
    }

    fn read(
        &self,
        alloc: Global,
        from: NodeId,
        to: NodeId,
        octets: &[u8],
    ) -> Result<Result<Message, DropReason>, Memory> {
        self.read_between(alloc, from, to, octets)
    }

    fn read_token(&self, alloc: Global, container: &[u8]) -> Result<Option<Token>, Memory> {
        token_in(alloc, &self.profile, container)
    }
}

impl LawfulCodec for ProfileCodec {
    ghost use Rattle.proof_message_codec.proofs.codec.Lawful.{items_are_read, pdus_are_read, messages_are_in_range};

    ghost reads_items = { items_are_read };

    ghost reads_pdus = { pdus_are_read };

    ghost reads_in_range = { messages_are_in_range };
}
