//! The value that is written for a token.
#![tactic(auto, unfolding(message_defs::specs::Tokens::written_token))]

ghost use Rattle.std.specs.Prelude.{◌≡◌, IfOk};
ghost use Rattle.message_types.specs.declared.rrc.Token.TheVariants as tokens;
ghost use Rattle.aper_defs.specs.Values as seen;
ghost use Rattle.aper_values.specs.Views.{view};
ghost use Rattle.message_defs.specs.Tokens.{written_token, written_mark};

use crate::alternatives::{ACCEPTED, COMMAND, COMPLETE, REESTABLISH};
use aper_values::make::chosen;
use aper_values::value::Value;
use gnb_types::items::Memory;
use gnb_types::names::{Gnb, UeId};
use message_types::Token;
use message_values::fields::{from_gnb, from_number, from_ue, sequence};
use std::alloc::Global;

/// The value of a token.
///
/// # Errors
/// Out of memory.
pub fn to_value(alloc: Global, token: Token) -> Result<Value, Memory>
    ensures { IfOk result (λ v. view v ≡ written_token token) }
{
    match token {
        Token::Command { ue, epoch, gnb, du } => Ok(command(alloc, ue, epoch, gnb, du)?),
        Token::Complete { ue, epoch } => Ok(mark(alloc, COMPLETE, ue, epoch)?),
        Token::Reestablish { ue, epoch } => Ok(mark(alloc, REESTABLISH, ue, epoch)?),
        Token::Accepted { ue, epoch } => Ok(mark(alloc, ACCEPTED, ue, epoch)?),
    }
}

fn command(alloc: Global, ue: UeId, epoch: u32, gnb: Gnb, du: u8) -> Result<Value, Memory>
    ensures { IfOk result (λ v. view v ≡ written_token (tokens.Command ue epoch gnb du)) }
{
    let parts = [
        Some(from_ue(ue)),
        Some(from_number(epoch)),
        Some(from_gnb(gnb)),
        Some(from_number(u32::from(du))),
    ];
    let body = sequence(alloc, parts)?;
    Ok(chosen(alloc, COMMAND, body)?)
}

/// An alternative that has a terminal and its epoch alone.
fn mark(alloc: Global, alternative: u32, ue: UeId, epoch: u32) -> Result<Value, Memory>
    ensures { IfOk result (λ v. view v ≡ seen.chosen alternative (written_mark ue epoch)) }
{
    let body = sequence(alloc, [Some(from_ue(ue)), Some(from_number(epoch))])?;
    Ok(chosen(alloc, alternative, body)?)
}
