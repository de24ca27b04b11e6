//! Messages of F1AP as octets.

use gnb_types::names::UeId;
use message_octets::MsgError;
use message_octets::f1_octets::from_bytes;
use message_types::{F1, F1Message};
use profile::profile_module::{Profile, builtin};
use std::alloc::Global;
use std::process::Abort;
use std::test::Fail;

/// The uplink transfer of a token, with an information element 99 that isn't known and is to be ignored, and with one to be rejected.
const IGNORED: &[u8] = &[
    0x00, 0x06, 0x00, 0x15, 0x00, 0x00, 0x03, 0x00, 0x01, 0x00, 0x01, 0x00, 0x00, 0x07, 0x00, 0x04,
    0x03, 0x40, 0x00, 0x02, 0x00, 0x63, 0x40, 0x01, 0xaa,
];

const REJECTED: &[u8] = &[
    0x00, 0x06, 0x00, 0x15, 0x00, 0x00, 0x03, 0x00, 0x01, 0x00, 0x01, 0x00, 0x00, 0x07, 0x00, 0x04,
    0x03, 0x40, 0x00, 0x02, 0x00, 0x63, 0x00, 0x01, 0xaa,
];

/// A procedure 9 that isn't known, to be ignored.
const UNKNOWN: &[u8] = &[0x00, 0x09, 0x40, 0x01, 0xaa];

fn is_the_transfer(msg: &F1Message) -> bool {
    match msg {
        F1::UlRrcMessageTransfer { ue, container } => {
            *ue == UeId(1) && container.as_slice() == [0x40, 0x00, 0x02].as_slice()
        }
        _ => false,
    }
}

fn is_read(alloc: Global, profile: &Profile, octets: &[u8]) -> bool {
    match from_bytes(alloc, profile, octets) {
        Ok(msg) => is_the_transfer(&msg),
        Err(_) => false,
    }
}

fn is_unknown_element(alloc: Global, profile: &Profile, octets: &[u8]) -> bool {
    match from_bytes(alloc, profile, octets) {
        Err(MsgError::UnknownIe { id }) => id == 99,
        _ => false,
    }
}

fn is_unknown_procedure(alloc: Global, profile: &Profile, octets: &[u8]) -> bool {
    match from_bytes(alloc, profile, octets) {
        Err(MsgError::UnknownProcedure { code, criticality }) => code == 9 && criticality == 1,
        _ => false,
    }
}

#[test]
fn worked_octets_are_read(rt: HostRuntime) -> Result<(), Fail> {
    let alloc = rt.alloc();
    let profile = builtin(alloc)?;
    assert!(rt; is_read(alloc, &profile, IGNORED));
    assert!(rt; is_unknown_element(alloc, &profile, REJECTED));
    assert!(rt; is_unknown_procedure(alloc, &profile, UNKNOWN));
    Ok(())
}
