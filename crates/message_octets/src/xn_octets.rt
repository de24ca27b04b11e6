//! The octets of messages of XnAP: the spellings of values of XnAP-PDU under the profile's version.

ghost use Rattle.std.specs.Prelude.{◌≤◌, [], IfOk};
ghost use Rattle.aper_defs.specs.Bits.{octet_count};
ghost use Rattle.aper_defs.specs.Membership.{Has};
ghost use Rattle.aper_defs.specs.Spelling.{Spells, spelling_limit, whole_layout};
ghost use Rattle.aper_values.specs.types.Types.{tree};
ghost use Rattle.profile.specs.Versions.{number_of};
ghost use Rattle.message_defs.specs.profile_defs.Profile.{xn_type};
ghost use Rattle.profile.specs.xn.Alike.{IsTypeLike};
ghost use Rattle.message_defs.specs.Xn.{written_xn, xn_from_value};
ghost use Rattle.message_octets.specs.Answers.{IsFromValueIn};
ghost use Rattle.message_octets.specs.Reading.{read_as, IsReading};

use crate::error::MsgError;
use aper::{decode, encode};
use asn1_syntax::types::TypeId;
use gnb_types::octets::{Memory, Octets};
use message_types::XnMessage;
use profile::profile_module::Profile;
use profile::xn::xn_pdu;
use std::alloc::Global;
use xn_messages::reading::from_value;
use xn_messages::writing::to_value;

/// The one spelling of a message under the profile's version, of at most 131,072 octets. Under version 1 no message with an origin is
/// written as a value of the type; under version 2 the origin is none or a name. Out of memory is the one error.
pub fn to_bytes(alloc: Global, profile: &Profile, msg: &XnMessage) -> Result<Octets, Memory>
    requires member { Has [] (xn_type (number_of profile.now.version)) (written_xn msg.now) }
    requires short { octet_count (whole_layout (xn_type (number_of profile.now.version)) (written_xn msg.now)) ≤ spelling_limit }
    ensures { IfOk result (λ octets. Spells (xn_type (number_of profile.now.version)) (written_xn msg.now) octets) }
{
    let value = to_value(alloc, msg)?;
    let id = xn_pdu(profile);
    let module = profile.module();
    let octets = encode(alloc, module, id, &value);
    drop(value);
    Ok(octets?)
}

/// The message that octets say under the profile's version. Information elements that the message doesn't have and whose criticality isn't
/// reject, and additions that aren't named, are passed over.
///
/// # Errors
/// `Refused` where they spell no value of XnAP-PDU; `UnknownProcedure` where its code isn't in the set or has no such outcome; `UnknownIe`
/// for the first information element that the message doesn't have and that has criticality reject (TS 38.423, 10.3); `Memory`.
pub fn from_bytes(alloc: Global, profile: &Profile, octets: &[u8]) -> Result<XnMessage, MsgError>
    ensures from_value { IsFromValueIn (xn_type (number_of profile.now.version)) xn_from_value octets.now result }
    ensures read { IsReading result (read_as (xn_type (number_of profile.now.version)) xn_from_value octets.now) }
{
    let id = xn_pdu(profile);
    // A module that was read has types within the bounds of encodings, of which the laws of spellings speak.
    let module = profile.module();
    let _name = module.name();
    from_value_in(alloc, profile, id, octets)
}

/// The message that octets say as a value of the module's own XnAP-PDU.
fn from_value_in(
    alloc: Global,
    profile: &Profile,
    id: TypeId,
    octets: &[u8],
) -> Result<XnMessage, MsgError>
    requires { IsTypeLike profile.now.syntax (xn_type (number_of profile.now.version)) id }
    ensures { IsFromValueIn (tree profile.now.syntax id.number) xn_from_value octets.now result }
{
    let module = profile.module();
    let value = decode(alloc, module, id, octets)?;
    let message = from_value(alloc, &value);
    drop(value);
    Ok(message?)
}
