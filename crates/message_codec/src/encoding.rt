//! Messages as octets: the one spelling of what is written for a message, and none where it has no spelling.

ghost use Rattle.std.specs.Prelude.{◌≡◌, ◌<◌, length, IfOk, All};
ghost use Rattle.profile.specs.Versions.{number_of};
ghost use Rattle.message_defs.specs.profile_defs.Profile.{f1_type, e1_type, xn_type, core_type, token_type};
ghost use Rattle.message_defs.specs.F1.{written_f1};
ghost use Rattle.message_defs.specs.E1.{written_e1};
ghost use Rattle.message_defs.specs.Xn.{written_xn};
ghost use Rattle.message_defs.specs.Core.{written_core};
ghost use Rattle.message_defs.specs.Tokens.{written_token};
ghost use Rattle.aper_defs.specs.octet_defs.Octets.{spelled_as};
ghost use Rattle.aper_values.specs.types.Types.{tree};
ghost use Rattle.aper_values.specs.Views.{view};

use aper::{Value, encode, is_value, spelled_length};
use asn1_module::{Module, TypeId};
use core_messages::writing::to_value as core_written;
use e1_messages::writing::to_value as e1_written;
use f1_messages::writing::to_value as f1_written;
use gnb_types::octets::{Memory, Octets};
use message_types::{CoreMessage, E1Message, F1Message, Token, XnMessage};
use profile::profile_module::Profile;
use profile::types::{core_pdu, e1_pdu, f1_pdu, rrc_token};
use profile::xn::xn_pdu;
use rrc_tokens::writing::to_value as token_written;
use std::alloc::Global;
use xn_messages::writing::to_value as xn_written;

/// The greatest number of octets of a spelling.
const SPELLING_LIMIT: u64 = 131_072;

/// Octets are below 256.
fn are_octets(octets: &[u8])
    ensures { All (λ o. o < 256) octets.now }
{
    let _ = octets;
}

/// The octets that spell a value of a type; none where it isn't one of the type, or where they would be too many.
fn spell_value(alloc: Global, module: &Module, id: TypeId, value: &Value) -> Result<Octets, Memory>
    requires { id.number < length module.now.nodes }
    ensures { IfOk result (λ octets. octets ≡ spelled_as (tree module.now id.number) (view value.now)) }
{
    // A module that was read has types within the bounds of encodings, of which the laws of spellings speak.
    let _name = module.name();
    if !is_value(module, id, value) {
        return Ok(Octets::new(alloc));
    }
    if spelled_length(module, id, value) > SPELLING_LIMIT {
        return Ok(Octets::new(alloc));
    }
    let octets = encode(alloc, module, id, value)?;
    are_octets(octets.as_slice());
    Ok(octets)
}

/// The same of a value of the profile's module, which is let go.
fn encoded(alloc: Global, profile: &Profile, id: TypeId, value: Value) -> Result<Octets, Memory>
    requires { id.number < length profile.now.syntax.nodes }
    ensures { IfOk result (λ octets. octets ≡ spelled_as (tree profile.now.syntax id.number) (view value)) }
{
    let octets = spell_value(alloc, profile.module(), id, &value);
    drop(value);
    octets
}

/// The octets of a message of F1AP.
pub(crate) fn spell_f1(
    alloc: Global,
    profile: &Profile,
    message: &F1Message,
) -> Result<Octets, Memory>
    ensures { IfOk result (λ octets. octets ≡ spelled_as f1_type (written_f1 message.now)) }
{
    let value = f1_written(alloc, message)?;
    encoded(alloc, profile, f1_pdu(profile), value)
}

/// The octets of a message of E1AP.
pub(crate) fn spell_e1(
    alloc: Global,
    profile: &Profile,
    message: &E1Message,
) -> Result<Octets, Memory>
    ensures { IfOk result (λ octets. octets ≡ spelled_as e1_type (written_e1 message.now)) }
{
    let value = e1_written(alloc, message)?;
    encoded(alloc, profile, e1_pdu(profile), value)
}

/// The octets of a message of XnAP, under the profile's version.
pub(crate) fn spell_xn(
    alloc: Global,
    profile: &Profile,
    message: &XnMessage,
) -> Result<Octets, Memory>
    ensures { IfOk result (λ octets. octets ≡ spelled_as (xn_type (number_of profile.now.version)) (written_xn message.now)) }
{
    let value = xn_written(alloc, message)?;
    encoded(alloc, profile, xn_pdu(profile), value)
}

/// The octets of a message with the core.
pub(crate) fn spell_core(
    alloc: Global,
    profile: &Profile,
    message: &CoreMessage,
) -> Result<Octets, Memory>
    ensures { IfOk result (λ octets. octets ≡ spelled_as core_type (written_core message.now)) }
{
    let value = core_written(alloc, message)?;
    encoded(alloc, profile, core_pdu(profile), value)
}

/// The octets of a token of RRC.
pub(crate) fn spell_token(alloc: Global, profile: &Profile, token: Token) -> Result<Octets, Memory>
    ensures { IfOk result (λ octets. octets ≡ spelled_as token_type (written_token token)) }
{
    let value = token_written(alloc, token)?;
    encoded(alloc, profile, rrc_token(profile), value)
}
