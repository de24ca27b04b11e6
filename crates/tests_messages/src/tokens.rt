//! Tokens with their least and greatest fields.

ghost use Rattle.std.specs.Prelude.{[]};
ghost use Rattle.aper_defs.specs.Membership.{Has};
ghost use Rattle.message_defs.specs.profile_defs.Profile.{token_type};
ghost use Rattle.message_defs.specs.Tokens.{written_token};

use gnb_types::names::{Gnb, UeId};
use message_types::Token;
use message_values::error::MsgError;
use rrc_tokens::reading::from_value;
use rrc_tokens::writing::to_value;
use std::alloc::Global;
use std::process::Abort;
use std::test::Fail;

/// Whether a token is heard in what is written for it.
fn is_received(alloc: Global, token: Token) -> Result<bool, MsgError>
    requires { Has [] token_type (written_token token) }
{
    let value = to_value(alloc, token)?;
    Ok(from_value(&value)? == token)
}

#[test]
fn commands(rt: HostRuntime) -> Result<(), Fail> {
    let least = Token::Command {
        ue: UeId(1),
        epoch: 0,
        gnb: Gnb::A,
        du: 1,
    };
    assert!(rt; is_received(rt.alloc(), least)?);
    let greatest = Token::Command {
        ue: UeId(16),
        epoch: u32::MAX,
        gnb: Gnb::B,
        du: 2,
    };
    assert!(rt; is_received(rt.alloc(), greatest)?);
    Ok(())
}

#[test]
fn marks(rt: HostRuntime) -> Result<(), Fail> {
    let complete = Token::Complete {
        ue: UeId(1),
        epoch: 0,
    };
    assert!(rt; is_received(rt.alloc(), complete)?);
    let reestablish = Token::Reestablish {
        ue: UeId(16),
        epoch: u32::MAX,
    };
    assert!(rt; is_received(rt.alloc(), reestablish)?);
    let accepted = Token::Accepted {
        ue: UeId(7),
        epoch: 2,
    };
    assert!(rt; is_received(rt.alloc(), accepted)?);
    Ok(())
}
