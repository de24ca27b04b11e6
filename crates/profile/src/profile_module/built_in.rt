//! The profile's module as a value.

ghost use Rattle.std.specs.Prelude.{◌≡◌, IfOk};
ghost use Rattle.profile.specs.declared.version.Version.TheVariants.{One, Two};
ghost use Rattle.profile.specs.Versions.{number_of};
ghost use Rattle.message_defs.specs.profile_defs.Agreement.{Agrees};
ghost use Rattle.profile.specs.profile_module.Profiles.{types_of, IsBuiltin};

use crate::Version;
use crate::profile_proof_text::profile_texts_agree;
use asn1_module::{Module, ModuleError, read_module};
use gnb_types::octets::Memory;
use std::alloc::Global;
use std::marker::Model;

/// A module that has exactly the types of a version of the profile. Contracts see the module as it was written, and the version.
#[derive(Drop)]
pub struct Profile {
    module: Module,
    version: Version,
}

impl Model for Profile {
    ghost use Rattle.message_defs.specs.profile_defs.Agreement.{Agrees};
    ghost use Rattle.profile.specs.profile_module.Profiles.{ProfileAt, types_of};

    ghost Value = { ProfileAt };

    ghost view = { λ p. record { syntax = p.module; version = p.version } };

    ghost invariant = { λ p. Agrees (types_of p.version) p.module };
}

impl Profile {
    /// A module that has exactly these types.
    pub(crate) fn of(read: Module, version: Version) -> Profile
        requires { Agrees (types_of version) read }
        ensures { result ≡ record { syntax = read; version = version } }
    {
        Profile {
            module: read,
            version,
        }
    }

    /// Its module.
    pub fn module(&self) -> &Module
        ensures syntax { result.now ≡ self.now.syntax }
        ensures agrees { Agrees (types_of self.now.version) self.now.syntax }
    {
        &self.module
    }

    /// The version of the profile, 1 or 2.
    pub fn version(&self) -> u8
        ensures { result ≡ number_of self.now.version }
    {
        self.version.number()
    }
}

/// The profile that the text of a version gives.
fn of_text(alloc: Global, version: Version) -> Result<Profile, Memory>
    ensures { IfOk result (λ profile. IsBuiltin version profile) }
{
    profile_texts_agree();
    match read_module(alloc, version.text()) {
        Ok((module, _)) => Ok(Profile::of(module, version)),
        Err(ModuleError::Memory) => Err(Memory::told()),
        Err(ModuleError::Refused { .. }) => unreachable!(),
    }
}

/// The profile, version 1.
pub fn builtin(alloc: Global) -> Result<Profile, Memory>
    ensures { IfOk result (λ profile. IsBuiltin One profile) }
{
    of_text(alloc, Version::One)
}

/// Version 2, whose HandoverRequest may have the name of its source.
pub fn builtin_2(alloc: Global) -> Result<Profile, Memory>
    ensures { IfOk result (λ profile. IsBuiltin Two profile) }
{
    of_text(alloc, Version::Two)
}
