//! The types that messages and tokens are of, in the module of a profile.

ghost use Rattle.message_defs.specs.profile_defs.Profile.{f1_type, e1_type, core_type, token_type};
ghost use Rattle.profile.specs.types.Types.{IsTypeOf};

use crate::profile_module::Profile;
use crate::trees::agreeing_modules_have_the_trees;
use asn1_syntax::types::TypeId;

/// F1AP-PDU (TS 38.473).
pub fn f1_pdu(profile: &Profile) -> TypeId
    ensures { IsTypeOf profile.now.syntax f1_type result }
{
    agreeing_modules_have_the_trees();
    let module = profile.module();
    let _name = module.name();
    module.find(b"F1AP-PDU").unwrap()
}

/// E1AP-PDU (TS 37.483).
pub fn e1_pdu(profile: &Profile) -> TypeId
    ensures { IsTypeOf profile.now.syntax e1_type result }
{
    agreeing_modules_have_the_trees();
    let module = profile.module();
    let _name = module.name();
    module.find(b"E1AP-PDU").unwrap()
}

/// Core-PDU, in place of NGAP (TS 38.413).
pub fn core_pdu(profile: &Profile) -> TypeId
    ensures { IsTypeOf profile.now.syntax core_type result }
{
    agreeing_modules_have_the_trees();
    let module = profile.module();
    let _name = module.name();
    module.find(b"Core-PDU").unwrap()
}

/// RrcToken, in place of messages of RRC (TS 38.331).
pub fn rrc_token(profile: &Profile) -> TypeId
    ensures { IsTypeOf profile.now.syntax token_type result }
{
    agreeing_modules_have_the_trees();
    let module = profile.module();
    let _name = module.name();
    module.find(b"RrcToken").unwrap()
}
