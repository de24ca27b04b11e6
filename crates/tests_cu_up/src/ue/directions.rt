//! An uplink and a downlink: each call once with ample memory. PDUs are those of TS 38.323, 6.2.2.2, worked out by hand.

use gnb_types::items::Memory;
use gnb_types::keys::EntityKey;
use gnb_types::names::{BearerId, Dir, SnBits, UeId};
use gnb_types::octets::Octets;
use pdcp_bearers::ue_bearers::{Receiver, Reception, Sender};
use std::alloc::Global;
use unit_messages::steps::StepError;

fn key(dir: Dir) -> EntityKey {
    EntityKey {
        ue: UeId(1),
        bearer: BearerId(1),
        dir,
    }
}

/// An uplink of at most 4 packets, with one of one octet that waits.
fn uplink_with_one(alloc: Global) -> Result<Sender, Memory> {
    let mut uplink = Sender::new(alloc, key(Dir::Ul), SnBits::Len12, 4)?;
    uplink.offer(Octets::from_slice(alloc, &[7])?)?;
    Ok(uplink)
}

/// Whether the next packet gets this COUNT and this PDU.
fn numbers(alloc: Global, uplink: &mut Sender, count: u32, pdu: &[u8]) -> Result<bool, StepError> {
    match uplink.number(alloc)? {
        Some(numbered) => Ok(numbered.count == count && numbered.pdu.as_slice() == pdu),
        None => Ok(false),
    }
}

/// Whether the packet that waits is the only one that is numbered, and is then held unconfirmed.
fn numbers_one(alloc: Global, uplink: &mut Sender) -> Result<bool, StepError> {
    let was_used = uplink.used() == 1;
    let is_numbered = numbers(alloc, uplink, 0, &[0x80, 0, 7])?;
    let is_alone = !numbers(alloc, uplink, 1, &[])?;
    let is_held = uplink.unconfirmed(0).map(|held| held.0) == Some(0);
    Ok(was_used && is_numbered && is_alone && is_held && !uplink.rests())
}

#[test]
fn packets_go_up(rt: HostRuntime) -> Result<(), Memory> {
    let alloc = rt.alloc();
    let mut uplink = uplink_with_one(alloc)?;
    let numbered = numbers_one(alloc, &mut uplink);
    uplink.confirm_to(0);
    let rests = uplink.rests();
    drop(uplink);
    assert!(rt; numbered == Ok(true) && rests);
    Ok(())
}

#[test]
fn a_report_confirms(rt: HostRuntime) -> Result<(), Memory> {
    let alloc = rt.alloc();
    let mut uplink = uplink_with_one(alloc)?;
    let numbered = numbers(alloc, &mut uplink, 0, &[0x80, 0, 7]);
    uplink.confirm_report(1, &[]);
    let rests = uplink.rests();
    drop(uplink);
    assert!(rt; numbered == Ok(true) && rests);
    Ok(())
}

/// Whether the packet of this COUNT and octet is delivered next.
fn delivers(alloc: Global, downlink: &mut Receiver, count: u32, octet: u8) -> Result<bool, Memory> {
    match downlink.deliver(alloc)? {
        Some(delivered) => {
            Ok(delivered.count == count && delivered.packet.as_slice() == [octet].as_slice())
        }
        None => Ok(false),
    }
}

/// Whether the report begins with this COUNT, and has these bits.
fn reports(
    alloc: Global,
    downlink: &Receiver,
    first: u32,
    received: &[bool],
) -> Result<bool, Memory> {
    let (fmc, bits) = downlink.report(alloc)?;
    Ok(fmc == first && bits.as_slice() == received)
}

/// Whether what comes ahead is stored once, and what is past the quota isn't.
fn takes_ahead(downlink: &mut Receiver) -> bool {
    let is_stored = downlink.take(1, &[8]) == Reception::Stored;
    let is_again = downlink.take(1, &[8]) == Reception::Duplicate;
    is_stored && is_again && downlink.take(4, &[9]) == Reception::Ahead
}

/// Whether what came is delivered in order, once what was missing is there.
fn delivers_both(alloc: Global, downlink: &mut Receiver) -> Result<bool, Memory> {
    let is_stored = downlink.take(0, &[7]) == Reception::Stored;
    let is_first = delivers(alloc, downlink, 0, 7)?;
    let is_next = delivers(alloc, downlink, 1, 8)?;
    Ok(is_stored && is_first && is_next && !delivers(alloc, downlink, 2, 9)?)
}

fn comes_down(alloc: Global, downlink: &mut Receiver) -> Result<bool, Memory> {
    let is_ahead = takes_ahead(downlink);
    let is_reported = reports(alloc, downlink, 0, &[true])?;
    Ok(is_ahead && is_reported && delivers_both(alloc, downlink)?)
}

#[test]
fn packets_come_down(rt: HostRuntime) -> Result<(), Memory> {
    let alloc = rt.alloc();
    let mut downlink = Receiver::new(alloc, key(Dir::Dl), SnBits::Len12, 4)?;
    let came = comes_down(alloc, &mut downlink);
    drop(downlink);
    assert!(rt; came == Ok(true));
    Ok(())
}
