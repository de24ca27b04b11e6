//! What octets say, or why they are dropped.

ghost use Rattle.std.specs.Prelude.{◌≡◌, Some, IfOk};
ghost use Rattle.profile.specs.Versions.{number_of};
ghost use Rattle.message_defs.specs.profile_defs.Profile.{f1_type, e1_type, xn_type, core_type, token_type};
ghost use Rattle.message_defs.specs.F1.{f1_from_value};
ghost use Rattle.message_defs.specs.E1.{e1_from_value};
ghost use Rattle.message_defs.specs.Xn.{xn_from_value};
ghost use Rattle.message_defs.specs.Core.{core_from_value};
ghost use Rattle.message_defs.specs.Tokens.{token_from_value};
ghost use Rattle.message_octets.specs.Reading.{read_as};
ghost use Rattle.unit_defs.specs.Ways.{f1, e1, xn, core, rrc};
ghost use Rattle.message_codec_defs.specs.Codecs.{answered, token_of};
ghost use Rattle.unit_messages.specs.Messages.{answer_as};
ghost use Rattle.message_codec.specs.Reasons.{reason_of};

use gnb_types::items::Memory;
use gnb_types::reasons::DropReason;
use message_octets::{MsgError, core_octets, e1_octets, f1_octets, token_octets, xn_octets};
use message_types::Token;
use profile::profile_module::Profile;
use std::alloc::Global;
use unit_messages::Message;

/// Why octets that say no message are dropped; or out of memory.
fn reason(error: MsgError) -> Result<DropReason, Memory>
    ensures { IfOk result (λ reason. reason_of error ≡ Some reason) }
{
    match error {
        MsgError::Refused { .. } => Ok(DropReason::Undecodable),
        MsgError::UnknownProcedure { .. } | MsgError::UnknownIe { .. } => Ok(
            DropReason::Criticality,
        ),
        MsgError::Memory => Err(Memory::told()),
    }
}

/// What octets of F1AP say, or why they are dropped.
pub(crate) fn read_f1(
    alloc: Global,
    profile: &Profile,
    octets: &[u8],
) -> Result<Result<Message, DropReason>, Memory>
    ensures { IfOk result (λ answer. answer_as answer ≡ answered f1 (read_as f1_type f1_from_value octets.now)) }
{
    match f1_octets::from_bytes(alloc, profile, octets) {
        Ok(message) => Ok(Ok(Message::F1(message))),
        Err(error) => Ok(Err(reason(error)?)),
    }
}

/// What octets of E1AP say, or why they are dropped.
pub(crate) fn read_e1(
    alloc: Global,
    profile: &Profile,
    octets: &[u8],
) -> Result<Result<Message, DropReason>, Memory>
    ensures { IfOk result (λ answer. answer_as answer ≡ answered e1 (read_as e1_type e1_from_value octets.now)) }
{
    match e1_octets::from_bytes(alloc, profile, octets) {
        Ok(message) => Ok(Ok(Message::E1(message))),
        Err(error) => Ok(Err(reason(error)?)),
    }
}

/// What octets of XnAP say under the profile's version, or why they are dropped.
pub(crate) fn read_xn(
    alloc: Global,
    profile: &Profile,
    octets: &[u8],
) -> Result<Result<Message, DropReason>, Memory>
    ensures { IfOk result (λ answer. answer_as answer ≡ answered xn (read_as (xn_type (number_of profile.now.version)) xn_from_value octets.now)) }
{
    match xn_octets::from_bytes(alloc, profile, octets) {
        Ok(message) => Ok(Ok(Message::Xn(message))),
        Err(error) => Ok(Err(reason(error)?)),
    }
}

/// What octets of the core say, or why they are dropped.
pub(crate) fn read_core(
    alloc: Global,
    profile: &Profile,
    octets: &[u8],
) -> Result<Result<Message, DropReason>, Memory>
    ensures { IfOk result (λ answer. answer_as answer ≡ answered core (read_as core_type core_from_value octets.now)) }
{
    match core_octets::from_bytes(alloc, profile, octets) {
        Ok(message) => Ok(Ok(Message::Core(message))),
        Err(error) => Ok(Err(reason(error)?)),
    }
}

/// What octets of RRC say, or why they are dropped.
pub(crate) fn read_rrc(
    alloc: Global,
    profile: &Profile,
    octets: &[u8],
) -> Result<Result<Message, DropReason>, Memory>
    ensures { IfOk result (λ answer. answer_as answer ≡ answered rrc (read_as token_type token_from_value octets.now)) }
{
    match token_octets::from_bytes(alloc, profile, octets) {
        Ok(message) => Ok(Ok(Message::Rrc(message))),
        Err(error) => Ok(Err(reason(error)?)),
    }
}

/// The token that octets say, if they say one.
pub(crate) fn token_in(
    alloc: Global,
    profile: &Profile,
    octets: &[u8],
) -> Result<Option<Token>, Memory>
    ensures { IfOk result (λ token. token ≡ token_of (read_as token_type token_from_value octets.now)) }
{
    match token_octets::from_bytes(alloc, profile, octets) {
        Ok(token) => Ok(Some(token)),
        Err(error) => {
            let _reason = reason(error)?;
            Ok(None)
        }
    }
}
