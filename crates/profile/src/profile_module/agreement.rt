//! Which modules are the profile's.

ghost use Rattle.std.specs.Prelude.{◌≡◌, option_map};
ghost use Rattle.message_defs.specs.profile_defs.Profile.{profile_types};
ghost use Rattle.message_defs.specs.profile_defs.Agreement.{Agrees, differs};
ghost use Rattle.profile.specs.profile_module.Profiles.{IsAgreementOf};
ghost use Rattle.profile.specs.declared.profile_module.agreement.AgreeError.TheVariants.{Memory};

use crate::Version;
use crate::profile_module::built_in::{Profile, builtin};
use crate::profile_module::names::type_names;
use crate::profile_module::types::{first_new, first_other};
use asn1_module::Module;
use gnb_types::octets;
use gnb_types::octets::Octets;
use std::alloc::Global;

/// Why a module isn't the profile's.
#[derive(Debug, Drop)]
pub enum AgreeError {
    /// The first type of the profile, by the order of names octet by octet, that the module lacks or has otherwise; or else the
    /// module's first further type.
    Differs { name: Octets },
    /// Out of memory.
    Memory,
}

impl From<octets::Memory> for AgreeError {
    ghost from_gives = { λ _ error. error ≡ Memory };

    fn from(_error: octets::Memory) -> AgreeError {
        AgreeError::Memory
    }
}

/// The first name by which a module differs from the profile.
fn differing<'a>(profile: &Module, module: &'a Module) -> Option<&'a [u8]>
    requires { Agrees (profile_types 1) profile.now }
    ensures { option_map (λ name. name.now) result ≡ differs (profile_types 1) module.now }
{
    // By the contract of its name, a module was read.
    let _ = module.name();
    let names = type_names();
    match first_other(names, profile, module) {
        Some(name) => Some(name),
        None => first_new(names, module),
    }
}

/// The profile, version 1, of a module that has its types and no further ones.
pub fn agrees(alloc: Global, read: Module) -> Result<Profile, AgreeError>
    ensures { IsAgreementOf read result }
{
    let profile = builtin(alloc)?;
    let own = profile.module();
    if let Some(name) = differing(own, &read) {
        return Err(AgreeError::Differs {
            name: Octets::from_slice(alloc, name)?,
        });
    }
    Ok(Profile::of(read, Version::One))
}
