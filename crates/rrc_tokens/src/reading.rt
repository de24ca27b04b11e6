//! The token that is heard in a value.
#![tactic(auto, unfolding(message_defs::specs::Tokens::token_from_value))]

ghost use Rattle.std.specs.Prelude.{◌≡◌, ◌≢◌, [], Err};
ghost use Rattle.aper_defs.specs.Membership.{Has};
ghost use Rattle.message_defs.specs.profile_defs.Profile.{token_type};
ghost use Rattle.aper_values.specs.Views.{view};
ghost use Rattle.message_defs.specs.Fields.{to_number, to_ue, to_index, gnb_at};
ghost use Rattle.message_defs.specs.Tokens.{component_in, components_in, token_at, token_from_value};
ghost use Rattle.message_values.specs.Reading.{IsFromValue};
ghost use Rattle.message_values.specs.declared.error.MsgError.TheVariants as errors;
ghost use Rattle.rrc_tokens.specs.Fitting.{AreFittingParts};

use crate::alternatives::{ACCEPTED, COMMAND, COMPLETE, REESTABLISH};
use aper_values::value::Value;
use gnb_types::names::{Gnb, UeId};
use message_types::Token;
use message_values::error::MsgError;
use message_values::fields::{part_at, to_gnb, to_number, to_octet};

/// The token that a value of RrcToken says. Additions are passed over.
///
/// # Errors
/// `UnknownProcedure`, with code 0 and criticality 0, for an alternative that isn't known.
pub fn from_value(value: &Value) -> Result<Token, MsgError>
    requires { Has [] token_type (view value.now) }
    ensures from_value { IsFromValue (token_from_value (view value.now)) result }
    ensures enough { result ≢ Err errors.Memory }
{
    match value {
        Value::Choice(alternative, body) => from_value_at(*alternative, body),
        _ => Err(MsgError::UnknownProcedure {
            code: 0,
            criticality: 0,
        }),
    }
}

/// The token of an alternative.
fn from_value_at(alternative: u32, body: &Value) -> Result<Token, MsgError>
    requires { AreFittingParts (components_in (view body.now)) }
    ensures from_value { IsFromValue (token_at alternative (components_in (view body.now))) result }
    ensures enough { result ≢ Err errors.Memory }
{
    match alternative {
        COMMAND => Ok(Token::Command {
            ue: ue_in(body),
            epoch: epoch_in(body),
            gnb: gnb_in(body),
            du: du_in(body),
        }),
        COMPLETE => Ok(Token::Complete {
            ue: ue_in(body),
            epoch: epoch_in(body),
        }),
        REESTABLISH => Ok(Token::Reestablish {
            ue: ue_in(body),
            epoch: epoch_in(body),
        }),
        ACCEPTED => Ok(Token::Accepted {
            ue: ue_in(body),
            epoch: epoch_in(body),
        }),
        _ => Err(MsgError::UnknownProcedure {
            code: 0,
            criticality: 0,
        }),
    }
}

fn ue_in(body: &Value) -> UeId
    requires { AreFittingParts (components_in (view body.now)) }
    ensures { result ≡ to_ue (component_in 0 (components_in (view body.now))) }
{
    match part_at(body, 0) {
        Some(ue) => UeId(to_octet(ue)),
        None => UeId(0),
    }
}

fn epoch_in(body: &Value) -> u32
    requires { AreFittingParts (components_in (view body.now)) }
    ensures { result ≡ to_number (component_in 1 (components_in (view body.now))) }
{
    match part_at(body, 1) {
        Some(epoch) => to_number(epoch),
        None => 0,
    }
}

fn gnb_in(body: &Value) -> Gnb
    ensures { result ≡ gnb_at (to_index (component_in 2 (components_in (view body.now)))) }
{
    match part_at(body, 2) {
        Some(gnb) => to_gnb(gnb),
        None => Gnb::A,
    }
}

fn du_in(body: &Value) -> u8
    requires { AreFittingParts (components_in (view body.now)) }
    ensures { result ≡ to_number (component_in 3 (components_in (view body.now))) }
{
    match part_at(body, 3) {
        Some(du) => to_octet(du),
        None => 0,
    }
}
