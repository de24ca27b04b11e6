//! The octets of messages of a CU-CP with the core: the spellings of values of Core-PDU.

ghost use Rattle.std.specs.Prelude.{◌≤◌, [], IfOk};
ghost use Rattle.aper_defs.specs.Bits.{octet_count};
ghost use Rattle.aper_defs.specs.Membership.{Has};
ghost use Rattle.aper_defs.specs.Spelling.{Spells, spelling_limit, whole_layout};
ghost use Rattle.message_defs.specs.profile_defs.Profile.{core_type};
ghost use Rattle.message_defs.specs.Core.{written_core, core_from_value};
ghost use Rattle.profile.specs.types.Types.{IsTypeOf};
ghost use Rattle.message_octets.specs.Answers.{IsFromValueIn};
ghost use Rattle.message_octets.specs.Reading.{read_as, IsReading};

use crate::error::MsgError;
use aper::{decode, encode};
use asn1_syntax::types::TypeId;
use core_messages::reading::from_value;
use core_messages::writing::to_value;
use gnb_types::octets::{Memory, Octets};
use message_types::CoreMessage;
use profile::profile_module::Profile;
use profile::types::core_pdu;
use std::alloc::Global;

/// The one spelling of a message, of at most 131,072 octets. Out of memory is the one error.
pub fn to_bytes(alloc: Global, profile: &Profile, msg: &CoreMessage) -> Result<Octets, Memory>
    requires member { Has [] core_type (written_core msg.now) }
    requires short { octet_count (whole_layout core_type (written_core msg.now)) ≤ spelling_limit }
    ensures { IfOk result (λ octets. Spells core_type (written_core msg.now) octets) }
{
    let value = to_value(alloc, msg)?;
    let id = core_pdu(profile);
    let module = profile.module();
    let octets = encode(alloc, module, id, &value);
    drop(value);
    Ok(octets?)
}

/// The message that octets say. Information elements that the message doesn't have and whose criticality isn't reject, and additions, are
/// passed over.
///
/// # Errors
/// `Refused` where they spell no value of Core-PDU; `UnknownProcedure` where its code isn't in the set or has no such outcome; `UnknownIe`
/// for the first information element that the message doesn't have and that has criticality reject (TS 38.413, 10.3); `Memory`.
pub fn from_bytes(alloc: Global, profile: &Profile, octets: &[u8]) -> Result<CoreMessage, MsgError>
    ensures from_value { IsFromValueIn core_type core_from_value octets.now result }
    ensures read { IsReading result (read_as core_type core_from_value octets.now) }
{
    let id = core_pdu(profile);
    let module = profile.module();
    // A module that was read has types within the bounds of encodings, of which the laws of spellings speak.
    let _name = module.name();
    from_value_in(alloc, profile, id, octets)
}

/// The message that octets say as a value of the module's own type.
fn from_value_in(
    alloc: Global,
    profile: &Profile,
    id: TypeId,
    octets: &[u8],
) -> Result<CoreMessage, MsgError>
    requires { IsTypeOf profile.now.syntax core_type id }
    ensures { IsFromValueIn core_type core_from_value octets.now result }
{
    let module = profile.module();
    let value = decode(alloc, module, id, octets)?;
    let message = from_value(alloc, &value);
    drop(value);
    Ok(message?)
}
