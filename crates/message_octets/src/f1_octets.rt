//! The octets of messages of F1AP: the spellings of values of F1AP-PDU.

ghost use Rattle.message_defs.specs.profile_defs.Profile.{f1_type};
ghost use Rattle.message_defs.specs.F1.{f1_from_value};
ghost use Rattle.profile.specs.types.Types.{IsTypeOf};
ghost use Rattle.message_octets.specs.Answers.{IsFromValueIn};
ghost use Rattle.message_octets.specs.Reading.{read_as, IsReading};

use crate::error::MsgError;
use aper::decode;
use asn1_syntax::types::TypeId;
pub use f1_messages::octets::to_bytes;
use f1_messages::reading::from_value;
use message_types::F1Message;
use profile::profile_module::Profile;
use profile::types::f1_pdu;
use std::alloc::Global;

/// The message that octets say. Information elements that the message doesn't have and whose criticality isn't reject, and additions, are
/// passed over.
///
/// # Errors
/// `Refused` where they spell no value of F1AP-PDU; `UnknownProcedure` where its code isn't in the set or has no such outcome; `UnknownIe`
/// for the first information element that the message doesn't have and that has criticality reject (TS 38.473, 10.3); `Memory`.
pub fn from_bytes(alloc: Global, profile: &Profile, octets: &[u8]) -> Result<F1Message, MsgError>
    ensures from_value { IsFromValueIn f1_type f1_from_value octets.now result }
    ensures read { IsReading result (read_as f1_type f1_from_value octets.now) }
{
    let id = f1_pdu(profile);
    let module = profile.module();
    // A module that was read has types within the bounds of encodings, of which the laws of spellings speak.
    let _name = module.name();
    from_value_in(alloc, profile, id, octets)
}

/// The message that octets say as a value of the module's own type.
fn from_value_in(
    alloc: Global,
    profile: &Profile,
    id: TypeId,
    octets: &[u8],
) -> Result<F1Message, MsgError>
    requires { IsTypeOf profile.now.syntax f1_type id }
    ensures { IsFromValueIn f1_type f1_from_value octets.now result }
{
    let module = profile.module();
    let value = decode(alloc, module, id, octets)?;
    let message = from_value(alloc, &value);
    drop(value);
    Ok(message?)
}
