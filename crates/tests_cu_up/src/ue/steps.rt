//! Steps of a terminal as tables: what it is given, and what it puts out.

ghost use Rattle.std.specs.Prelude.{◌≡◌, true};
ghost use Rattle.ue_node.specs.Nodes.{HasPacket};

use crate::ue::tokens::Tokens;
use gnb_types::hex::{HexError, hex_bytes};
use gnb_types::inputs::{Input, Order};
use gnb_types::items::Memory;
use gnb_types::names::{BearerId, Dir, Gnb, NodeId, SnBits, UeId};
use gnb_types::octets::Octets;
use gnb_types::outputs::{Output, Outputs, Tag};
use gnb_types::plans::Plan;
use gnb_types::reasons::{DropReason, HeldReason, RefuseReason};
use std::alloc::Global;
use ue_node::UeNode;
use unit_messages::steps::StepError;

pub const UE: UeId = UeId(1);

pub const DU_1: NodeId = NodeId::Du(Gnb::A, 1);

pub const DU_2: NodeId = NodeId::Du(Gnb::A, 2);

/// Terminal 1 at CU-UP 1 and DU 1 of gNB A, with numbers of 12 bits, one bearer, and a quota of 4.
pub const PLAN: Plan = Plan {
    ue: UE,
    gnb: Gnb::A,
    up: 1,
    du: 1,
    sn: SnBits::Len12,
    bearers: 1,
    quota: 4,
};

/// What the terminal is given.
#[derive(Clone, Copy)]
pub enum Call {
    /// It is set up without messages.
    Static,
    Give(NodeId, &'static str),
    /// Its radio carries a PDU, or confirms one, at this bearer.
    Air(u8, Dir, &'static str),
    Ack(u8, Dir, &'static str),
    Offer(u8, &'static str),
    /// A packet of so many octets is offered.
    OfferLong(usize),
    Tunnel,
    Tick,
    Order(Order),
}

pub const ARRIVE: Call = Call::Order(Order::Arrive(UE));

pub const RETURN: Call = Call::Order(Order::Return(UE));

pub const FAIL: Call = Call::Order(Order::Fail(UE));

/// What it puts out.
#[derive(Clone, Copy)]
pub enum Put {
    Say(NodeId, &'static str),
    /// On the radio of this epoch.
    Radio(u32, Tag, &'static str),
    Deliver(u32, &'static str),
    Drop(DropReason),
    Held(HeldReason),
    No(RefuseReason),
}

/// Octets by their digits. Where memory runs out they are asked for again: so the tests also pass where any one allocation fails.
fn octets_of(alloc: Global, text: &str) -> Result<Octets, HexError> {
    match hex_bytes(alloc, text.as_bytes()) {
        Ok(octets) => Ok(octets),
        Err(_) => hex_bytes(alloc, text.as_bytes()),
    }
}

fn is_octets(alloc: Global, octets: &Octets, text: &str) -> bool {
    match octets_of(alloc, text) {
        Ok(wanted) => octets.as_slice() == wanted.as_slice(),
        Err(_) => false,
    }
}

fn is_put(alloc: Global, output: &Output, put: &Put) -> bool {
    match (output, put) {
        (Output::Control { to, ue, bytes }, Put::Say(wanted, text)) => {
            to == wanted && *ue == UE.0 && is_octets(alloc, bytes, text)
        }
        (
            Output::Radio {
                dir,
                epoch,
                count,
                bytes,
                ..
            },
            Put::Radio(on, tag, text),
        ) => {
            let place = *dir == Dir::Ul && epoch == on && count == tag;
            place && is_octets(alloc, bytes, text)
        }
        (
            Output::Deliver {
                dir,
                count,
                packet,
                ..
            },
            Put::Deliver(wanted, text),
        ) => *dir == Dir::Dl && count == wanted && is_octets(alloc, packet, text),
        (Output::Drop(reason), Put::Drop(wanted)) => reason == wanted,
        (Output::Held(reason), Put::Held(wanted)) => reason == wanted,
        (Output::No(reason), Put::No(wanted)) => reason == wanted,
        _ => false,
    }
}

fn are_puts(alloc: Global, outputs: &Outputs, puts: &[Put]) -> bool {
    if outputs.len() != puts.len() {
        return false;
    }
    for (output, put) in outputs.as_slice().iter().zip(puts.iter()) {
        if !is_put(alloc, output, put) {
            return false;
        }
    }
    true
}

/// So many octets, as a packet.
fn long_packet(alloc: Global, count: usize) -> Result<Octets, HexError> {
    let mut packet = Octets::new(alloc);
    for _ in 0..count {
        if packet.push(7).is_err() {
            packet.push(7)?;
        }
    }
    Ok(packet)
}

/// The input of a call, None where it is no step.
fn input_of(alloc: Global, given: &Call) -> Result<Option<Input>, HexError> {
    let input = match given {
        Call::Static => return Ok(None),
        Call::Give(from, text) => Input::Control {
            from: *from,
            bytes: octets_of(alloc, text)?,
        },
        Call::Air(bearer, dir, text) => Input::Radio {
            ue: UE,
            bearer: BearerId(*bearer),
            dir: *dir,
            bytes: octets_of(alloc, text)?,
        },
        Call::Ack(bearer, dir, text) => Input::Confirm {
            ue: UE,
            bearer: BearerId(*bearer),
            dir: *dir,
            bytes: octets_of(alloc, text)?,
        },
        Call::Offer(bearer, text) => Input::Offer {
            ue: UE,
            bearer: BearerId(*bearer),
            packet: octets_of(alloc, text)?,
        },
        Call::OfferLong(count) => Input::Offer {
            ue: UE,
            bearer: BearerId(1),
            packet: long_packet(alloc, *count)?,
        },
        Call::Tunnel => Input::Packet {
            teid: 1,
            bytes: Octets::new(alloc),
        },
        Call::Tick => Input::Tick,
        Call::Order(order) => Input::Order(*order),
    };
    Ok(Some(input))
}

/// How a step went, or a run.
#[derive(Clone, Copy, PartialEq, Eq)]
enum Outcome {
    /// It put out what it should.
    AsTold,
    Differs,
    /// Memory ran out, and the terminal answers that from then on.
    OutOfMemory,
}

fn outcome_if(good: bool, outcome: Outcome) -> Outcome {
    if good { outcome } else { Outcome::Differs }
}

/// Whether a terminal that ran out of memory answers the same from then on.
fn stays_failed(alloc: Global, node: &mut UeNode) -> bool {
    let again = match node.step(alloc, &Tokens, Input::Tick) {
        Err(StepError::Memory) => true,
        Ok(_) | Err(StepError::Spent { .. }) => false,
    };
    again && node.place_static() == Err(StepError::Memory)
}

/// Whether an input is one that a terminal may be given: an offered packet isn't empty.
fn is_allowed(input: &Input) -> bool
    ensures { result ≡ true → HasPacket input.now }
{
    match input {
        Input::Offer { packet, .. } => {
            if packet.len() < 1 {
                return false;
            }
            true
        }
        _ => true,
    }
}

fn input_outcome(alloc: Global, node: &mut UeNode, input: Input, puts: &[Put]) -> Outcome {
    if let Input::Offer { packet, .. } = &input
        && packet.is_empty()
    {
        drop(input);
        return Outcome::Differs;
    }
    match node.step(alloc, &Tokens, input) {
        Ok(outputs) => {
            let are_told = are_puts(alloc, &outputs, puts);
            drop(outputs);
            outcome_if(are_told, Outcome::AsTold)
        }
        Err(StepError::Memory) => outcome_if(stays_failed(alloc, node), Outcome::OutOfMemory),
        Err(StepError::Spent { .. }) => Outcome::Differs,
    }
}

fn step_outcome(alloc: Global, node: &mut UeNode, given: &Call, puts: &[Put]) -> Outcome {
    match input_of(alloc, given) {
        Ok(Some(input)) => input_outcome(alloc, node, input, puts),
        Ok(None) => outcome_if(node.place_static().is_ok(), Outcome::AsTold),
        Err(_) => Outcome::Differs,
    }
}

/// Whether a terminal puts out what it should in these steps.
fn outcome_of(alloc: Global, node: &mut UeNode, steps: &[(Call, &[Put])]) -> Outcome {
    for (given, puts) in steps {
        let outcome = step_outcome(alloc, node, given, puts);
        if outcome != Outcome::AsTold {
            return outcome;
        }
    }
    Outcome::AsTold
}

fn run(alloc: Global, steps: &[(Call, &[Put])]) -> Outcome {
    let Ok(mut node) = new_node(alloc) else {
        return Outcome::Differs;
    };
    let outcome = outcome_of(alloc, &mut node, steps);
    drop(node);
    outcome
}

/// A new terminal. Where memory runs out it is made again.
pub fn new_node(alloc: Global) -> Result<UeNode, Memory> {
    match UeNode::new(alloc, PLAN) {
        Ok(node) => Ok(node),
        Err(_) => UeNode::new(alloc, PLAN),
    }
}

/// Whether a new terminal puts out what it should in these steps. Where memory runs out they are made again with another one.
pub fn is_as_told(alloc: Global, steps: &[(Call, &[Put])]) -> bool {
    let outcome = match run(alloc, steps) {
        Outcome::OutOfMemory => run(alloc, steps),
        other => other,
    };
    outcome == Outcome::AsTold
}
