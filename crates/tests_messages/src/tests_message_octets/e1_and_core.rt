//! A message of E1AP and one with the core as octets.

use gnb_types::names::UeId;
use message_octets::{core_octets, e1_octets};
use message_types::{CoreMessage, E1Message};
use profile::profile_module::{Profile, builtin};
use std::alloc::Global;
use std::process::Abort;
use std::test::Fail;

/// Bearer Context Release Complete, and Path Switch Acknowledge, for terminal 1 and instance 1.
const COMPLETE: &[u8] = &[
    0x20, 0x04, 0x00, 0x0e, 0x00, 0x00, 0x02, 0x00, 0x01, 0x00, 0x01, 0x00, 0x00, 0x02, 0x00, 0x02,
    0x00, 0x01,
];

const ACKNOWLEDGE: &[u8] = &[
    0x20, 0x01, 0x00, 0x0e, 0x00, 0x00, 0x02, 0x00, 0x01, 0x00, 0x01, 0x00, 0x00, 0x02, 0x00, 0x02,
    0x00, 0x01,
];

fn is_complete(alloc: Global, profile: &Profile, octets: &[u8]) -> bool {
    match e1_octets::from_bytes(alloc, profile, octets) {
        Ok(E1Message::BearerContextReleaseComplete { ue, instance }) => {
            ue == UeId(1) && instance == 1
        }
        _ => false,
    }
}

fn is_acknowledge(alloc: Global, profile: &Profile, octets: &[u8]) -> bool {
    match core_octets::from_bytes(alloc, profile, octets) {
        Ok(CoreMessage::PathSwitchAcknowledge { ue, instance }) => ue == UeId(1) && instance == 1,
        _ => false,
    }
}

#[test]
fn worked_octets_are_read(rt: HostRuntime) -> Result<(), Fail> {
    let alloc = rt.alloc();
    let profile = builtin(alloc)?;
    assert!(rt; is_complete(alloc, &profile, COMPLETE));
    assert!(rt; is_acknowledge(alloc, &profile, ACKNOWLEDGE));
    Ok(())
}
