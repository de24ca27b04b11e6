//! Packets of worked handovers, and each refusal once. The octets and COUNTs were worked out by hand.

use forwarding::{HopError, Relay, SourceHop, TargetHop, TunnelKind};
use gnb_types::hex::hex_bytes;
use gnb_types::items::Memory;
use gnb_types::names::{Dir, Gnb, NodeId, SnBits};
use gnb_types::octets::Octets;
use gnb_types::reasons::HeldReason;
use std::alloc::Global;
use std::test::Fail;

/// The source of a worked handover: the forwarding tunnels 3 and 4 of `B.up1`.
fn source(sn: SnBits) -> SourceHop {
    SourceHop::new(NodeId::CuUp(Gnb::B, 1), 3, 4, sn)
}

fn is_text(alloc: Global, octets: &Octets, text: &str) -> Result<bool, Fail> {
    let wanted = hex_bytes(alloc, text.as_bytes())?;
    Ok(octets.as_slice() == wanted.as_slice())
}

/// Whether these octets were written.
fn is_written(alloc: Global, written: Result<Octets, Memory>, text: &str) -> Result<bool, Fail> {
    let octets = written?;
    is_text(alloc, &octets, text)
}

/// Whether these octets were put, and no refusal.
fn is_put(alloc: Global, put: Result<Octets, HopError>, text: &str) -> Result<bool, Fail> {
    match put {
        Ok(octets) => is_text(alloc, &octets, text),
        Err(_) => Ok(false),
    }
}

/// Numbered packets: the length of numbers, the COUNT, the one octet of the packet, and what is written.
const NUMBERED: [(SnBits, u32, u8, &str); 5] = [
    (SnBits::Len12, 0, 1, "34FF000900000003000000C00100000001"),
    (SnBits::Len12, 1, 2, "34FF000900000003000000C00100010002"),
    (SnBits::Len12, 2, 3, "34FF000900000003000000C00100020003"),
    (SnBits::Len12, 4098, 3, "34FF000900000003000000C00100020003"),
    (
        SnBits::Len18,
        65537,
        7,
        "34FF000D0000000300000082020100010000000007",
    ),
];

fn writes_numbered(alloc: Global) -> Result<bool, Fail> {
    for (sn, count, packet, text) in NUMBERED {
        let written = source(sn).numbered(alloc, count, &[packet]);
        if !is_written(alloc, written, text)? {
            return Ok(false);
        }
    }
    Ok(true)
}

/// Whether a packet without a number, and one of the uplink, are written.
fn writes_others(alloc: Global, hop: &SourceHop) -> Result<bool, Fail> {
    let fresh = hop.fresh(alloc, &[4]);
    let is_fresh = is_written(alloc, fresh, "30FF00010000000304")?;
    let late = hop.late(alloc, 0, &[0x45]);
    Ok(is_fresh && is_written(alloc, late, "34FF000900000004000000C00100000045")?)
}

/// Whether a tunnel is ended once.
fn ends_once(alloc: Global, hop: &mut SourceHop, dir: Dir, text: &str) -> Result<bool, Fail> {
    let ended = hop.end(alloc, dir);
    let is_ended = is_put(alloc, ended, text)?;
    let again = match hop.end(alloc, dir) {
        Err(HopError::EndSeen) => true,
        Ok(_) | Err(_) => false,
    };
    Ok(is_ended && again)
}

#[test]
fn what_a_source_puts(rt: HostRuntime) -> Result<(), Fail> {
    let alloc = rt.alloc();
    assert!(rt; writes_numbered(alloc)?);
    let mut hop = source(SnBits::Len12);
    assert!(rt; hop.place(Dir::Dl) == (NodeId::CuUp(Gnb::B, 1), 3));
    assert!(rt; hop.place(Dir::Ul) == (NodeId::CuUp(Gnb::B, 1), 4));
    assert!(rt; writes_others(alloc, &hop)?);
    assert!(rt; ends_once(alloc, &mut hop, Dir::Dl, "30FE000000000003")?);
    assert!(rt; ends_once(alloc, &mut hop, Dir::Ul, "30FE000000000004")?);
    Ok(())
}

/// A call of a target, and its answer.
#[derive(Clone, Copy)]
enum Call {
    CountOf(u32, Result<u32, HopError>),
    Next(TunnelKind, Result<(), HeldReason>),
    Status(u32),
    Arrived,
    End(Dir, Result<(), HopError>),
    Done(bool),
}

const TAKEN: [Call; 23] = [
    Call::CountOf(0, Err(HopError::NoStatus)),
    Call::Next(TunnelKind::N3, Err(HeldReason::NoStatus)),
    Call::Status(4098),
    Call::CountOf(1, Ok(4097)),
    Call::CountOf(2, Ok(2)),
    Call::CountOf(4095, Ok(4095)),
    Call::CountOf(4096, Ok(4096)),
    Call::Status(3),
    Call::CountOf(2, Ok(2)),
    Call::CountOf(3, Err(HopError::BelowZero)),
    Call::Next(TunnelKind::ForwardUp, Err(HeldReason::NotArrived)),
    Call::Arrived,
    Call::Next(TunnelKind::ForwardUp, Ok(())),
    Call::Next(TunnelKind::ForwardDown, Ok(())),
    Call::Next(TunnelKind::F1Up, Ok(())),
    Call::Next(TunnelKind::N3, Err(HeldReason::Early)),
    Call::End(Dir::Dl, Ok(())),
    Call::End(Dir::Dl, Err(HopError::EndSeen)),
    Call::Next(TunnelKind::N3, Ok(())),
    Call::Done(false),
    Call::End(Dir::Ul, Ok(())),
    Call::End(Dir::Ul, Err(HopError::EndSeen)),
    Call::Done(true),
];

/// Whether a call has the answer that goes with it.
fn answers(hop: &mut TargetHop, call: Call) -> bool {
    match call {
        Call::CountOf(number, count) => hop.count_of(number) == count,
        Call::Next(kind, next) => hop.next(kind) == next,
        Call::Status(dl_next) => {
            hop.status(dl_next);
            true
        }
        Call::Arrived => {
            hop.arrived();
            true
        }
        Call::End(dir, ended) => hop.end(dir) == ended,
        Call::Done(done) => hop.done() == done,
    }
}

#[test]
fn what_a_target_takes(rt: HostRuntime) -> Result<(), Fail> {
    let mut hop = TargetHop::new(SnBits::Len12);
    for call in TAKEN {
        assert!(rt; answers(&mut hop, call));
    }
    Ok(())
}

fn is_refused(put: Result<Octets, HopError>) -> bool {
    match put {
        Err(HopError::BelowZero) => true,
        Ok(_) | Err(_) => false,
    }
}

/// Whether a relay passes on a numbered packet and a fresh one.
fn passes(alloc: Global, relay: &Relay) -> Result<bool, Fail> {
    let numbered = relay.pass(alloc, Some(0), &[1]);
    let is_numbered = is_put(alloc, numbered, "34FF000900000003000000C00100000001")?;
    let is_below = is_refused(relay.pass(alloc, Some(1), &[1]));
    let fresh = relay.pass(alloc, None, &[4]);
    Ok(is_numbered && is_below && is_put(alloc, fresh, "30FF00010000000304")?)
}

#[test]
fn what_a_relay_passes(rt: HostRuntime) -> Result<(), Fail> {
    let alloc = rt.alloc();
    let mut below = TargetHop::new(SnBits::Len12);
    below.status(1);
    let mut relay = Relay::new(below, source(SnBits::Len12));
    assert!(rt; passes(alloc, &relay)?);
    assert!(rt; relay.end_below(Dir::Dl) == Ok(()));
    assert!(rt; relay.end_below(Dir::Dl) == Err(HopError::EndSeen));
    let (mut below, mut above) = relay.split();
    assert!(rt; below.end(Dir::Dl) == Err(HopError::EndSeen));
    let ended = above.end(alloc, Dir::Dl);
    assert!(rt; is_put(alloc, ended, "30FE000000000003")?);
    Ok(())
}
