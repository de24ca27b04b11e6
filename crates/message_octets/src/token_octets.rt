//! The octets of tokens: the spellings of values of RrcToken.

ghost use Rattle.std.specs.Prelude.{◌≤◌, [], IfOk};
ghost use Rattle.aper_defs.specs.Bits.{octet_count};
ghost use Rattle.aper_defs.specs.Membership.{Has};
ghost use Rattle.aper_defs.specs.Spelling.{Spells, spelling_limit, whole_layout};
ghost use Rattle.message_defs.specs.profile_defs.Profile.{token_type};
ghost use Rattle.message_defs.specs.Tokens.{written_token, token_from_value};
ghost use Rattle.profile.specs.types.Types.{IsTypeOf};
ghost use Rattle.message_octets.specs.Answers.{IsFromValueIn};
ghost use Rattle.message_octets.specs.Reading.{read_as, IsReading};

use crate::error::MsgError;
use aper::{decode, encode};
use asn1_syntax::types::TypeId;
use gnb_types::octets::{Memory, Octets};
use message_types::Token;
use profile::profile_module::Profile;
use profile::types::rrc_token;
use rrc_tokens::reading::from_value;
use rrc_tokens::writing::to_value;
use std::alloc::Global;

/// The one spelling of a token, of at most 131,072 octets. Out of memory is the one error.
pub fn to_bytes(alloc: Global, profile: &Profile, token: Token) -> Result<Octets, Memory>
    requires member { Has [] token_type (written_token token) }
    requires short { octet_count (whole_layout token_type (written_token token)) ≤ spelling_limit }
    ensures { IfOk result (λ octets. Spells token_type (written_token token) octets) }
{
    let value = to_value(alloc, token)?;
    let id = rrc_token(profile);
    let module = profile.module();
    let octets = encode(alloc, module, id, &value);
    drop(value);
    Ok(octets?)
}

/// The token that octets say. Additions are passed over.
///
/// # Errors
/// `Refused` where they spell no value of RrcToken; `UnknownProcedure`, with code 0 and criticality 0, for an alternative that isn't known;
/// `Memory`.
pub fn from_bytes(alloc: Global, profile: &Profile, octets: &[u8]) -> Result<Token, MsgError>
    ensures from_value { IsFromValueIn token_type token_from_value octets.now result }
    ensures read { IsReading result (read_as token_type token_from_value octets.now) }
{
    let id = rrc_token(profile);
    let module = profile.module();
    // A module that was read has types within the bounds of encodings, of which the laws of spellings speak.
    let _name = module.name();
    from_value_in(alloc, profile, id, octets)
}

/// The token that octets say as a value of the module's own type.
fn from_value_in(
    alloc: Global,
    profile: &Profile,
    id: TypeId,
    octets: &[u8],
) -> Result<Token, MsgError>
    requires { IsTypeOf profile.now.syntax token_type id }
    ensures { IsFromValueIn token_type token_from_value octets.now result }
{
    let module = profile.module();
    let value = decode(alloc, module, id, octets)?;
    let token = from_value(&value);
    drop(value);
    Ok(token?)
}
