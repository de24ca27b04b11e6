//! Tokens as octets.

ghost use Rattle.std.specs.Prelude.{◌≤◌, []};
ghost use Rattle.aper_defs.specs.Bits.{octet_count};
ghost use Rattle.aper_defs.specs.Membership.{Has};
ghost use Rattle.aper_defs.specs.Spelling.{spelling_limit, whole_layout};
ghost use Rattle.message_defs.specs.profile_defs.Profile.{token_type};
ghost use Rattle.message_defs.specs.Tokens.{written_token};

use gnb_types::names::{Gnb, UeId};
use message_octets::MsgError;
use message_octets::token_octets::{from_bytes, to_bytes};
use message_types::Token;
use profile::profile_module::{Profile, builtin};
use std::alloc::Global;
use std::process::Abort;
use std::test::Fail;

struct Row {
    octets: &'static [u8],
    token: Token,
}

/// For terminal 1, worked out by hand.
const ROWS: [Row; 4] = [
    Row {
        octets: &[0x20, 0x00, 0x01],
        token: Token::Complete {
            ue: UeId(1),
            epoch: 1,
        },
    },
    Row {
        octets: &[0x40, 0x00, 0x02],
        token: Token::Reestablish {
            ue: UeId(1),
            epoch: 2,
        },
    },
    Row {
        octets: &[0x60, 0x00, 0x02],
        token: Token::Accepted {
            ue: UeId(1),
            epoch: 2,
        },
    },
    Row {
        octets: &[0x00, 0x00, 0x01, 0x40],
        token: Token::Command {
            ue: UeId(1),
            epoch: 1,
            gnb: Gnb::A,
            du: 2,
        },
    },
];

fn is_read(alloc: Global, profile: &Profile, octets: &[u8], token: Token) -> bool {
    match from_bytes(alloc, profile, octets) {
        Ok(read) => read == token,
        Err(_) => false,
    }
}

#[test]
fn worked_octets_are_read(rt: HostRuntime) -> Result<(), Fail> {
    let alloc = rt.alloc();
    let profile = builtin(alloc)?;
    for row in &ROWS {
        assert!(rt; is_read(alloc, &profile, row.octets, row.token));
    }
    Ok(())
}

fn is_written(alloc: Global, profile: &Profile, token: Token, octets: &[u8]) -> bool
    requires member { Has [] token_type (written_token token) }
    requires short { octet_count (whole_layout token_type (written_token token)) ≤ spelling_limit }
{
    match to_bytes(alloc, profile, token) {
        Ok(written) => written.as_slice() == octets,
        Err(_) => false,
    }
}

#[test]
fn a_command_is_written(rt: HostRuntime) -> Result<(), Fail> {
    let alloc = rt.alloc();
    let profile = builtin(alloc)?;
    let command = Token::Command {
        ue: UeId(1),
        epoch: 1,
        gnb: Gnb::A,
        du: 2,
    };
    assert!(rt; is_written(alloc, &profile, command, &[0x00, 0x00, 0x01, 0x40]));
    Ok(())
}

/// The alternative after the known ones, with one octet that isn't known.
fn is_unknown(alloc: Global, profile: &Profile, octets: &[u8]) -> bool {
    match from_bytes(alloc, profile, octets) {
        Err(MsgError::UnknownProcedure { code, criticality }) => code == 0 && criticality == 0,
        _ => false,
    }
}

/// A wrong field at a bit of the whole value.
fn is_refused(alloc: Global, profile: &Profile, octets: &[u8], at: u64) -> bool {
    match from_bytes(alloc, profile, octets) {
        Err(MsgError::Refused { bit, path, .. }) => bit == at && path.as_slice() == b"-".as_slice(),
        _ => false,
    }
}

#[test]
fn other_octets_are_no_tokens(rt: HostRuntime) -> Result<(), Fail> {
    let alloc = rt.alloc();
    let profile = builtin(alloc)?;
    assert!(rt; is_unknown(alloc, &profile, &[0x80, 0x01, 0xaa]));
    assert!(rt; is_refused(alloc, &profile, &[], 0));
    assert!(rt; is_refused(alloc, &profile, &[0x20, 0x00, 0x01, 0x00], 24));
    Ok(())
}
