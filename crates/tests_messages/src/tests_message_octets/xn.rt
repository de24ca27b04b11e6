//! A Handover Request of XnAP as octets, in both versions of the profile.

use gnb_types::octets::Octets;
use message_octets::xn_octets::from_bytes;
use message_types::XnMessage;
use profile::profile_module::{Profile, builtin, builtin_2};
use std::alloc::Global;
use std::process::Abort;
use std::test::Fail;

/// For terminal 1, to A.up1 and A.du1, with the origin `A.cp`.
const REQUEST: &[u8] = &[
    0x00, 0x01, 0x00, 0x36, 0x80, 0x00, 0x08, 0x00, 0x01, 0x00, 0x01, 0x00, 0x00, 0x02, 0x00, 0x02,
    0x00, 0x01, 0x00, 0x03, 0x00, 0x02, 0x00, 0x02, 0x00, 0x04, 0x00, 0x01, 0x00, 0x00, 0x09, 0x00,
    0x01, 0x00, 0x00, 0x0a, 0x00, 0x02, 0x00, 0x3c, 0x00, 0x0c, 0x00, 0x01, 0x00, 0x00, 0x13, 0x00,
    0x01, 0x00, 0x01, 0x06, 0x01, 0x80, 0x41, 0x2e, 0x63, 0x70,
];

fn is_origin(origin: &Option<Octets>, name: &[u8]) -> bool {
    match origin {
        Some(origin) => origin.as_slice() == name,
        None => name.is_empty(),
    }
}

/// A Handover Request with this name of its source; an empty one for none.
fn is_read(alloc: Global, profile: &Profile, octets: &[u8], name: &[u8]) -> bool {
    match from_bytes(alloc, profile, octets) {
        Ok(
            XnMessage::HandoverRequest {
                quota,
                epoch,
                origin,
                ..
            },
        ) => quota == 64 && epoch == 2 && is_origin(&origin, name),
        _ => false,
    }
}

#[test]
fn worked_octets_are_read(rt: HostRuntime) -> Result<(), Fail> {
    let alloc = rt.alloc();
    let older = builtin(alloc)?;
    assert!(rt; is_read(alloc, &older, REQUEST, b""));
    let newer = builtin_2(alloc)?;
    assert!(rt; is_read(alloc, &newer, REQUEST, b"A.cp"));
    Ok(())
}
