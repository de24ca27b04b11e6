//! A terminal at a DU: its packets, a gap, a poll, confirmations, and its release. The octets were worked out by hand.

use du_contexts::contexts::DuContexts;
use du_contexts::making::ContextSetup;
use du_contexts::packets::RadioKey;
use gnb_types::hex::hex_bytes;
use gnb_types::names::{BearerId, Dir, Gnb, NodeId, SnBits, UeId};
use gnb_types::octets::Octets;
use gnb_types::outputs::{Output, Outputs};
use gnb_types::plans::{Peer, Tunnel};
use gnb_types::reasons::DropReason;
use std::alloc::Global;
use std::test::Fail;
use unit_messages::steps::StepError;

/// What the DU is given.
enum Call {
    SetUp,
    Frame(u32, &'static str),
    Up(u8, &'static str),
    Confirm(u8, &'static str),
    Release,
}

/// What it puts out.
enum Put {
    Opened(u32),
    Closed(u32),
    Drop(DropReason),
    /// To the CU-UP, on the uplink tunnel 2.
    Packet(Dir, &'static str),
    /// To the radio of epoch 1.
    Radio(&'static str),
}

#[rattlefmt::skip]
const CALLS: [(Call, &[Put]); 13] = [
    (Call::Up(1, "800045"), &[Put::Drop(DropReason::NoContext)]),
    (Call::SetUp, &[Put::Opened(1)]),
    (Call::Frame(1, "34FF000F00000001000000840200000000000000800045"), &[Put::Radio("800045")]),
    // Number 1 is missing: it is told, and the payload is dropped.
    (
        Call::Frame(1, "34FF000F00000001000000840200000000020000800245"),
        &[
            Put::Packet(
                Dir::Dl,
                "34FF0014000000020000008404110000010000010000010000010000",
            ),
            Put::Drop(DropReason::Gap),
        ],
    ),
    // A poll in a gap is answered.
    (Call::Frame(1, "34FF000C00000001000000840201000000030000"), &[Put::Packet(Dir::Dl, "34FF000C00000002000000840210000001000000")]),
    // The restart mark ends the gap.
    (Call::Frame(1, "34FF000F00000001000000840200010000040000800345"), &[Put::Radio("800345")]),
    (Call::Frame(9, "00"), &[Put::Drop(DropReason::NoTunnel)]),
    (Call::Frame(1, "00"), &[Put::Drop(DropReason::Undecodable)]),
    (Call::Up(1, "800045"), &[Put::Packet(Dir::Ul, "30FF000300000002800045")]),
    (Call::Confirm(1, "800045"), &[Put::Packet(Dir::Dl, "34FF00100000000200000084031400000100000000000000")]),
    (Call::Confirm(1, "0000000000"), &[]),
    (Call::Release, &[Put::Packet(Dir::Ul, "30FE000000000002"), Put::Closed(1)]),
    (Call::Frame(1, "00"), &[Put::Drop(DropReason::NoTunnel)]),
];

fn is_octets(alloc: Global, octets: &Octets, text: &str) -> Result<bool, Fail> {
    let wanted = hex_bytes(alloc, text.as_bytes())?;
    Ok(octets.as_slice() == wanted.as_slice())
}

fn is_put(alloc: Global, output: &Output, put: &Put) -> Result<bool, Fail> {
    match (output, put) {
        (Output::Opened(teid), Put::Opened(wanted)) => Ok(teid == wanted),
        (Output::Closed(teid), Put::Closed(wanted)) => Ok(teid == wanted),
        (Output::Drop(reason), Put::Drop(wanted)) => Ok(reason == wanted),
        (
            Output::Packet {
                to,
                teid,
                dir,
                bytes,
                ..
            },
            Put::Packet(wanted, text),
        ) => {
            let place = *to == NodeId::CuUp(Gnb::A, 1) && *teid == 2 && dir == wanted;
            Ok(place && is_octets(alloc, bytes, text)?)
        }
        (Output::Radio { epoch, bytes, .. }, Put::Radio(text)) => {
            Ok(*epoch == 1 && is_octets(alloc, bytes, text)?)
        }
        _ => Ok(false),
    }
}

fn are_puts(alloc: Global, outputs: &Outputs, puts: &[Put]) -> Result<bool, Fail> {
    if outputs.len() != puts.len() {
        return Ok(false);
    }
    for (output, put) in outputs.as_slice().iter().zip(puts.iter()) {
        if !is_put(alloc, output, put)? {
            return Ok(false);
        }
    }
    Ok(true)
}

fn key(ue: u8) -> RadioKey {
    RadioKey {
        ue: UeId(ue),
        bearer: BearerId(1),
    }
}

fn make_call(
    alloc: Global,
    contexts: &mut DuContexts,
    call: &Call,
    outputs: &mut Outputs,
) -> Result<Result<(), StepError>, Fail> {
    match call {
        Call::SetUp => {
            let setup = ContextSetup {
                epoch: 1,
                sn: SnBits::Len12,
                peer: Peer { gnb: Gnb::A, up: 1 },
            };
            let uplinks = [Tunnel {
                bearer: BearerId(1),
                teid: 2,
            }];
            Ok(contexts.set_up(alloc, UeId(1), setup, &uplinks, outputs))
        }
        Call::Frame(teid, text) => {
            let octets = hex_bytes(alloc, text.as_bytes())?;
            Ok(contexts.take(alloc, *teid, octets.as_slice(), outputs))
        }
        Call::Up(ue, text) => {
            let octets = hex_bytes(alloc, text.as_bytes())?;
            Ok(contexts.radio_came(alloc, key(*ue), octets.as_slice(), outputs))
        }
        Call::Confirm(ue, text) => {
            let octets = hex_bytes(alloc, text.as_bytes())?;
            Ok(contexts.confirm_came(alloc, key(*ue), octets.as_slice(), outputs))
        }
        Call::Release => Ok(contexts.release(alloc, UeId(1), outputs)),
    }
}

fn puts_what_it_should(
    alloc: Global,
    contexts: &mut DuContexts,
    given: &Call,
    puts: &[Put],
) -> Result<bool, Fail> {
    let mut outputs = Outputs::new(alloc);
    match make_call(alloc, contexts, given, &mut outputs)? {
        Ok(()) => are_puts(alloc, &outputs, puts),
        Err(_) => Ok(false),
    }
}

fn puts_all(alloc: Global, contexts: &mut DuContexts) -> Result<bool, Fail> {
    for (given, puts) in &CALLS {
        if !puts_what_it_should(alloc, contexts, given, puts)? {
            return Ok(false);
        }
    }
    Ok(true)
}

#[test]
fn packets_of_a_terminal(rt: HostRuntime) -> Result<(), Fail> {
    let alloc = rt.alloc();
    let mut contexts = DuContexts::new(alloc);
    let put = puts_all(alloc, &mut contexts);
    drop(contexts);
    assert!(rt; put?);
    Ok(())
}
