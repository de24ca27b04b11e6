//! XnAP-PDU in the module of a profile, in either version. A module may have OPTIONAL at the named addition of HandoverRequest or not,
//! since modules agree either way; encodings don't tell these apart.

ghost use Rattle.profile.specs.Versions.{number_of};
ghost use Rattle.message_defs.specs.profile_defs.Profile.{xn_type};
ghost use Rattle.profile.specs.xn.Alike.{IsTypeLike};

use crate::profile_module::Profile;
use asn1_syntax::types::TypeId;

/// XnAP-PDU (TS 38.423), as the version of the profile has it.
pub fn xn_pdu(profile: &Profile) -> TypeId
    ensures { IsTypeLike profile.now.syntax (xn_type (number_of profile.now.version)) result }
{
    let module = profile.module();
    let _name = module.name();
    module.find(b"XnAP-PDU").unwrap()
}
