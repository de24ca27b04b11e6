//! A module is checked.

ghost use Rattle.std.specs.Prelude.{◌≡◌, IfOk};
ghost use Rattle.commands.specs.command_check.Check.{IsSummary, Summarises, ChecksInput};

use crate::command_check::input::{CheckedModule, take_end};
use crate::input_module::{GivenModule, ModuleStop, take_module};
use asn1_module::Module;
use gnb_base::lines::LineReader;
use gnb_base::outside::Source;
use gnb_types::octets::{Memory, Octets};
use profile::Version;
use profile::profile_module::{builtin, builtin_2};
use std::alloc::Global;

/// What is reported of a module.
fn summary_of(alloc: Global, module: &Module) -> Result<CheckedModule, Memory>
    ensures { IfOk result (λ checked. IsSummary module.now checked) }
{
    Ok(CheckedModule {
        name: Octets::from_slice(alloc, module.name())?,
        types: module.len(),
    })
}

/// What is reported of the module that a header names; of the profile it is read of its text.
fn summary_given(alloc: Global, given: &GivenModule) -> Result<CheckedModule, Memory>
    ensures { IfOk result (λ checked. Summarises given.now checked) }
{
    match given {
        GivenModule::Text(module) => summary_of(alloc, module),
        GivenModule::Builtin(Version::One) => summary_of(alloc, builtin(alloc)?.module()),
        GivenModule::Builtin(Version::Two) => summary_of(alloc, builtin_2(alloc)?.module()),
    }
}

/// Checks that an input is a header and the module that it names, and nothing else.
pub fn check_module<S: Source>(alloc: Global, input: &mut S) -> Result<CheckedModule, ModuleStop>
    ensures { ChecksInput (S.at input.old) (S.at input.new) result }
{
    let mut reader = LineReader::new(alloc)?;
    let given = take_module(alloc, Version::Two, &mut reader, input)?;
    take_end(&mut reader, input)?;
    Ok(summary_given(alloc, &given)?)
}
