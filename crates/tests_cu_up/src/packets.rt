//! Many packets through a CU-UP, each way. How many, and what they cost, is measured with the variable `PACKETS` (tools/bench_up.py).

use crate::steps::{Outcome, UE, outcome_if, outputs_of, stays_failed};
use cu_user::CuUser;
use gnb_types::inputs::Input;
use gnb_types::names::{Gnb, SnBits};
use gnb_types::octets::Octets;
use gnb_types::outputs::{Output, Outputs, Tag};
use gnb_types::plans::Plan;
use std::alloc::Global;
use std::env;
use std::env::VarError;
use std::test::Fail;

/// Where `PACKETS` isn't set: numbers of 12 bits begin again.
const PACKETS: u32 = 5_000;

const PLAN: Plan = Plan {
    ue: UE,
    gnb: Gnb::A,
    up: 1,
    du: 1,
    sn: SnBits::Len12,
    bearers: 1,
    quota: 4,
};

/// What an item of a tunnel leads to.
#[derive(Clone, Copy)]
enum Wanted {
    /// The packet is sent with this COUNT.
    Sent(u32),
    Nothing,
    /// The packet of this COUNT is delivered.
    Delivered(u32),
}

fn is_wanted(outputs: &Outputs, wanted: Wanted) -> bool {
    match (outputs.as_slice(), wanted) {
        ([Output::Packet { count, .. }], Wanted::Sent(number)) => *count == Tag::Own(number),
        ([Output::Deliver { count, .. }], Wanted::Delivered(number)) => *count == number,
        ([], Wanted::Nothing) => true,
        _ => false,
    }
}

/// Where memory runs out it is asked for again, as in the other tests.
fn copied(alloc: Global, octets: &[u8]) -> Result<Octets, Fail> {
    match Octets::from_slice(alloc, octets) {
        Ok(octets) => Ok(octets),
        Err(_) => Ok(Octets::from_slice(alloc, octets)?),
    }
}

fn outcome_of_item(
    alloc: Global,
    node: &mut CuUser,
    teid: u32,
    octets: &[u8],
    wanted: Wanted,
) -> Result<Outcome, Fail> {
    let bytes = copied(alloc, octets)?;
    match outputs_of(alloc, node, &Input::Packet { teid, bytes }) {
        Ok(outputs) => Ok(outcome_if(is_wanted(&outputs, wanted), Outcome::AsTold)),
        Err(outcome) => Ok(outcome),
    }
}

/// A packet down, the delivery status of the DU, by which nothing is unconfirmed any more, and a packet up.
fn outcome_of_packets(alloc: Global, node: &mut CuUser, number: u32) -> Result<Outcome, Fail> {
    let high = (number / 256 % 16) as u8;
    let low = (number % 256) as u8;
    let down = [0x30, 0xFF, 0, 1, 0, 0, 0, 1, 0x45];
    let outcome = outcome_of_item(alloc, node, 1, &down, Wanted::Sent(number))?;
    if outcome != Outcome::AsTold {
        return Ok(outcome);
    }
    let status = [
        0x34, 0xFF, 0, 16, 0, 0, 0, 2, 0, 0, 0, 0x84, 3, 0x14, 0, 0, 1, 0, 0, 0, high, low, 0, 0,
    ];
    let outcome = outcome_of_item(alloc, node, 2, &status, Wanted::Nothing)?;
    if outcome != Outcome::AsTold {
        return Ok(outcome);
    }
    let up = [0x30, 0xFF, 0, 3, 0, 0, 0, 2, 0x80 + high, low, 0x61];
    outcome_of_item(alloc, node, 2, &up, Wanted::Delivered(number))
}

/// Whether a new CU-UP carries so many packets each way.
fn carried(alloc: Global, packets: u32) -> Result<Outcome, Fail> {
    let mut node = CuUser::new(alloc, Gnb::A, 1);
    if node.place_static(alloc, PLAN, 7).is_err() {
        return Ok(outcome_if(stays_failed(alloc, &mut node), Outcome::OutOfMemory));
    }
    for number in 0..packets {
        let outcome = outcome_of_packets(alloc, &mut node, number)?;
        if outcome != Outcome::AsTold {
            return Ok(outcome);
        }
    }
    Ok(Outcome::AsTold)
}

/// What `PACKETS` says.
fn packets(rt: &HostRuntime) -> Result<u32, Fail> {
    let text = match env::var(rt, "PACKETS") {
        Err(VarError::NotPresent) => return Ok(PACKETS),
        Err(VarError::OutOfMemory) => env::var(rt, "PACKETS")?,
        read => read?,
    };
    Ok(text.as_str().parse::<u32>()?)
}

#[test]
fn carries_packets(rt: HostRuntime) -> Result<(), Fail> {
    let packets = packets(&rt)?;
    let outcome = match carried(rt.alloc(), packets)? {
        Outcome::OutOfMemory => carried(rt.alloc(), packets)?,
        other => other,
    };
    assert!(rt; outcome == Outcome::AsTold);
    Ok(())
}
