//! Steps of a DU as tables: what it is given, and what it puts out.

use crate::tests_du_node::few_messages::FewMessages;
use du_node::DuNode;
use gnb_types::hex::{HexError, hex_bytes};
use gnb_types::inputs::{Input, Order};
use gnb_types::names::{BearerId, Dir, Gnb, NodeId, UeId};
use gnb_types::octets::Octets;
use gnb_types::outputs::{Output, Outputs, Tag};
use gnb_types::reasons::DropReason;
use std::alloc::Global;
use unit_messages::steps::StepError;

pub const UE: UeId = UeId(1);

pub const BEARER: BearerId = BearerId(1);

pub const CP: NodeId = NodeId::CuCp(Gnb::A);

pub const UP: NodeId = NodeId::CuUp(Gnb::A, 1);

pub const U1: NodeId = NodeId::Ue(1);
/// What the DU is given. Octets are hexadecimal digits.
#[derive(Clone, Copy)]
pub enum Call {
    Give(NodeId, &'static str),
    /// An item of a downlink tunnel.
    Packet(u32, &'static str),
    /// The radio carries a PDU of bearer 1 of terminal 1, or confirms one.
    Air(Dir, &'static str),
    Ack(Dir, &'static str),
    Offer(&'static str),
    Tick,
    Order(Order),
}

/// What it puts out.
#[derive(Clone, Copy)]
pub enum Put {
    /// A message of this terminal, 0 for none.
    Say(NodeId, u8, &'static str),
    /// To CU-UP 1, on this uplink tunnel of bearer 1 of terminal 1.
    Packet(u32, Dir, Tag, &'static str),
    /// On the radio of this epoch of bearer 1 of terminal 1, with the COUNT of what was taken.
    Radio(u32, &'static str),
    Opened(u32),
    Closed(u32),
    Drop(DropReason),
}

/// Octets by their digits. Where memory runs out they are asked for again: so the tests also pass where any one allocation fails.
fn octets_of(alloc: Global, text: &str) -> Result<Octets, HexError> {
    match hex_bytes(alloc, text.as_bytes()) {
        Ok(octets) => Ok(octets),
        Err(_) => hex_bytes(alloc, text.as_bytes()),
    }
}

fn is_octets(alloc: Global, octets: &Octets, text: &str) -> bool {
    match octets_of(alloc, text) {
        Ok(wanted) => octets.as_slice() == wanted.as_slice(),
        Err(_) => false,
    }
}

/// Whether this is an item of bearer 1 of terminal 1.
fn is_own(ue: UeId, bearer: BearerId) -> bool {
    ue == UE && bearer == BEARER
}

fn is_packet(alloc: Global, output: &Output, put: &Put) -> bool {
    match (output, put) {
        (
            Output::Packet {
                to,
                teid,
                ue,
                bearer,
                dir,
                count,
                bytes,
            },
            Put::Packet(wanted, way, tag, text),
        ) => {
            let place = *to == UP && teid == wanted && is_own(*ue, *bearer);
            place && dir == way && count == tag && is_octets(alloc, bytes, text)
        }
        _ => false,
    }
}

fn is_radio(alloc: Global, output: &Output, put: &Put) -> bool {
    match (output, put) {
        (
            Output::Radio {
                ue,
                bearer,
                dir,
                epoch,
                count,
                bytes,
            },
            Put::Radio(wanted, text),
        ) => {
            let place = *dir == Dir::Dl && epoch == wanted && is_own(*ue, *bearer);
            place && *count == Tag::Same && is_octets(alloc, bytes, text)
        }
        _ => false,
    }
}

fn is_put(alloc: Global, output: &Output, put: &Put) -> bool {
    match (output, put) {
        (Output::Control { to, ue, bytes }, Put::Say(wanted, whose, text)) => {
            to == wanted && ue == whose && is_octets(alloc, bytes, text)
        }
        (Output::Opened(teid), Put::Opened(wanted)) => teid == wanted,
        (Output::Closed(teid), Put::Closed(wanted)) => teid == wanted,
        (Output::Drop(reason), Put::Drop(wanted)) => reason == wanted,
        (Output::Radio { .. }, _) => is_radio(alloc, output, put),
        _ => is_packet(alloc, output, put),
    }
}

fn are_puts(alloc: Global, outputs: &Outputs, puts: &[Put]) -> bool {
    if outputs.len() != puts.len() {
        return false;
    }
    for (output, put) in outputs.as_slice().iter().zip(puts.iter()) {
        if !is_put(alloc, output, put) {
            return false;
        }
    }
    true
}

fn input_of(alloc: Global, given: &Call) -> Result<Input, HexError> {
    let input = match given {
        Call::Give(from, text) => Input::Control {
            from: *from,
            bytes: octets_of(alloc, text)?,
        },
        Call::Packet(teid, text) => Input::Packet {
            teid: *teid,
            bytes: octets_of(alloc, text)?,
        },
        Call::Air(dir, text) => Input::Radio {
            ue: UE,
            bearer: BEARER,
            dir: *dir,
            bytes: octets_of(alloc, text)?,
        },
        Call::Ack(dir, text) => Input::Confirm {
            ue: UE,
            bearer: BEARER,
            dir: *dir,
            bytes: octets_of(alloc, text)?,
        },
        Call::Offer(text) => Input::Offer {
            ue: UE,
            bearer: BEARER,
            packet: octets_of(alloc, text)?,
        },
        Call::Tick => Input::Tick,
        Call::Order(order) => Input::Order(*order),
    };
    Ok(input)
}

/// How a step went, or a run.
#[derive(Clone, Copy, PartialEq, Eq)]
enum Outcome {
    /// It put out what it should.
    AsTold,
    Differs,
    /// Memory ran out, and the DU answers that from then on.
    OutOfMemory,
}

fn outcome_if(good: bool, outcome: Outcome) -> Outcome {
    if good { outcome } else { Outcome::Differs }
}

/// Whether a DU that ran out of memory answers the same from then on.
fn stays_failed(alloc: Global, node: &mut DuNode) -> bool {
    match node.step(alloc, &FewMessages, &Input::Tick) {
        Err(StepError::Memory) => true,
        Ok(_) | Err(StepError::Spent { .. }) => false,
    }
}

fn step_outcome(alloc: Global, node: &mut DuNode, given: &Call, puts: &[Put]) -> Outcome {
    let Ok(input) = input_of(alloc, given) else {
        return Outcome::Differs;
    };
    let stepped = node.step(alloc, &FewMessages, &input);
    drop(input);
    match stepped {
        Ok(outputs) => {
            let are_told = are_puts(alloc, &outputs, puts);
            drop(outputs);
            outcome_if(are_told, Outcome::AsTold)
        }
        Err(StepError::Memory) => outcome_if(stays_failed(alloc, node), Outcome::OutOfMemory),
        Err(StepError::Spent { .. }) => Outcome::Differs,
    }
}

/// Whether a DU puts out what it should in these steps.
fn outcome_of(alloc: Global, node: &mut DuNode, steps: &[(Call, &[Put])]) -> Outcome {
    for (given, puts) in steps {
        let outcome = step_outcome(alloc, node, given, puts);
        if outcome != Outcome::AsTold {
            return outcome;
        }
    }
    Outcome::AsTold
}

fn run(alloc: Global, steps: &[(Call, &[Put])]) -> Outcome {
    let mut node = DuNode::new(alloc, Gnb::A, 1);
    let outcome = outcome_of(alloc, &mut node, steps);
    drop(node);
    outcome
}

/// Whether a new DU 1 of gNB A puts out what it should in these steps. Where memory runs out they are made again with another one.
pub fn is_as_told(alloc: Global, steps: &[(Call, &[Put])]) -> bool {
    let outcome = match run(alloc, steps) {
        Outcome::OutOfMemory => run(alloc, steps),
        other => other,
    };
    outcome == Outcome::AsTold
}
