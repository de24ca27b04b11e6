//! Steps of a CU-UP as tables: what it is given, and what it puts out.

use crate::few_messages::FewMessages;
use cu_user::CuUser;
use gnb_types::hex::hex_bytes;
use gnb_types::inputs::{Input, Order};
use gnb_types::names::{BearerId, Dir, Gnb, NodeId, UeId};
use gnb_types::octets::Octets;
use gnb_types::outputs::{Output, Outputs, Tag};
use gnb_types::reasons::{DropReason, HeldReason, RefuseReason};
use std::alloc::Global;
use std::test::Fail;
use unit_messages::steps::StepError;

pub const UE: UeId = UeId(1);

pub const BEARER: BearerId = BearerId(1);

pub const CP: NodeId = NodeId::CuCp(Gnb::A);

/// The CU-UP to which a freeze leads.
pub const PEER: NodeId = NodeId::CuUp(Gnb::B, 1);

pub const DU: NodeId = NodeId::Du(Gnb::A, 1);

/// What the CU-UP is given. Octets are hexadecimal digits.
#[derive(Drop)]
pub enum Call {
    Give(NodeId, &'static str),
    /// An item of a tunnel.
    Packet(u32, &'static str),
    Offer(&'static str),
    Tick,
    Order(Order),
}

/// What it puts out.
#[derive(Drop)]
pub enum Put {
    /// A message to the CU-CP, of this terminal, 0 for none.
    Say(u8, &'static str),
    /// On this tunnel of a node, of bearer 1 of terminal 1.
    Packet(NodeId, u32, Dir, Tag, &'static str),
    /// To the network: the packet of this COUNT.
    Deliver(u32, &'static str),
    Opened(u32),
    Closed(u32),
    Drop(DropReason),
    Held(HeldReason),
    No(RefuseReason),
}

/// Octets by their digits. Where memory runs out they are asked for again: so the tests also pass where any one allocation fails.
fn octets_of(alloc: Global, text: &str) -> Result<Octets, Fail> {
    match hex_bytes(alloc, text.as_bytes()) {
        Ok(octets) => Ok(octets),
        Err(_) => Ok(hex_bytes(alloc, text.as_bytes())?),
    }
}

fn is_octets(alloc: Global, octets: &Octets, text: &str) -> Result<bool, Fail> {
    let wanted = octets_of(alloc, text)?;
    Ok(octets.as_slice() == wanted.as_slice())
}

/// Whether this is an item of bearer 1 of terminal 1.
fn is_own(ue: UeId, bearer: BearerId) -> bool {
    ue == UE && bearer == BEARER
}

fn is_packet(alloc: Global, output: &Output, put: &Put) -> Result<bool, Fail> {
    match (output, put) {
        (
            Output::Packet {
                to,
                teid,
                ue,
                bearer,
                dir,
                count,
                bytes,
            },
            Put::Packet(node, wanted, way, tag, text),
        ) => {
            let place = to == node && teid == wanted && is_own(*ue, *bearer);
            Ok(place && dir == way && count == tag && is_octets(alloc, bytes, text)?)
        }
        _ => Ok(false),
    }
}

fn is_delivered(alloc: Global, output: &Output, put: &Put) -> Result<bool, Fail> {
    match (output, put) {
        (
            Output::Deliver {
                ue,
                bearer,
                dir,
                count,
                packet,
            },
            Put::Deliver(wanted, text),
        ) => {
            let place = *dir == Dir::Ul && is_own(*ue, *bearer);
            Ok(place && count == wanted && is_octets(alloc, packet, text)?)
        }
        _ => Ok(false),
    }
}

fn is_put(alloc: Global, output: &Output, put: &Put) -> Result<bool, Fail> {
    match (output, put) {
        (Output::Control { to, ue, bytes }, Put::Say(whose, text)) => {
            Ok(*to == CP && ue == whose && is_octets(alloc, bytes, text)?)
        }
        (Output::Opened(teid), Put::Opened(wanted)) => Ok(teid == wanted),
        (Output::Closed(teid), Put::Closed(wanted)) => Ok(teid == wanted),
        (Output::Drop(reason), Put::Drop(wanted)) => Ok(reason == wanted),
        (Output::Held(reason), Put::Held(wanted)) => Ok(reason == wanted),
        (Output::No(reason), Put::No(wanted)) => Ok(reason == wanted),
        (Output::Deliver { .. }, _) => is_delivered(alloc, output, put),
        _ => is_packet(alloc, output, put),
    }
}

fn are_puts(alloc: Global, outputs: &Outputs, puts: &[Put]) -> Result<bool, Fail> {
    if outputs.len() != puts.len() {
        return Ok(false);
    }
    for (output, put) in outputs.as_slice().iter().zip(puts.iter()) {
        if !is_put(alloc, output, put)? {
            return Ok(false);
        }
    }
    Ok(true)
}

fn input_of(alloc: Global, given: &Call) -> Result<Input, Fail> {
    let input = match given {
        Call::Give(from, text) => Input::Control {
            from: *from,
            bytes: octets_of(alloc, text)?,
        },
        Call::Packet(teid, text) => Input::Packet {
            teid: *teid,
            bytes: octets_of(alloc, text)?,
        },
        Call::Offer(text) => Input::Offer {
            ue: UE,
            bearer: BEARER,
            packet: octets_of(alloc, text)?,
        },
        Call::Tick => Input::Tick,
        Call::Order(order) => Input::Order(*order),
    };
    Ok(input)
}

/// How a step went, or a run.
#[derive(Clone, Copy, Debug, PartialEq, Eq)]
pub enum Outcome {
    /// It put out what it should.
    AsTold,
    Differs,
    /// Memory ran out, and the CU-UP answers that from then on.
    OutOfMemory,
}

pub fn outcome_if(good: bool, outcome: Outcome) -> Outcome {
    if good { outcome } else { Outcome::Differs }
}

/// Whether a CU-UP that ran out of memory answers the same from then on.
pub fn stays_failed(alloc: Global, node: &mut CuUser) -> bool {
    match node.step(alloc, &FewMessages, &Input::Tick) {
        Err(StepError::Memory) => true,
        Ok(_) | Err(StepError::Spent { .. }) => false,
    }
}

/// What a step puts out; or how it went, where it could not be made.
pub fn outputs_of(alloc: Global, node: &mut CuUser, input: &Input) -> Result<Outputs, Outcome> {
    match node.step(alloc, &FewMessages, input) {
        Ok(outputs) => Ok(outputs),
        Err(StepError::Memory) => Err(outcome_if(stays_failed(alloc, node), Outcome::OutOfMemory)),
        Err(StepError::Spent { .. }) => Err(Outcome::Differs),
    }
}

fn step_outcome(
    alloc: Global,
    node: &mut CuUser,
    given: &Call,
    puts: &[Put],
) -> Result<Outcome, Fail> {
    let input = input_of(alloc, given)?;
    match outputs_of(alloc, node, &input) {
        Ok(outputs) => Ok(outcome_if(are_puts(alloc, &outputs, puts)?, Outcome::AsTold)),
        Err(outcome) => Ok(outcome),
    }
}

/// Whether a CU-UP puts out what it should in these steps.
fn outcome_of(alloc: Global, node: &mut CuUser, steps: &[(Call, &[Put])]) -> Result<Outcome, Fail> {
    for (given, puts) in steps {
        let outcome = step_outcome(alloc, node, given, puts)?;
        if outcome != Outcome::AsTold {
            return Ok(outcome);
        }
    }
    Ok(Outcome::AsTold)
}

fn run(alloc: Global, steps: &[(Call, &[Put])]) -> Result<Outcome, Fail> {
    let mut node = CuUser::new(alloc, Gnb::A, 1);
    outcome_of(alloc, &mut node, steps)
}

/// Whether a new CU-UP 1 of gNB A puts out what it should in these steps. Where memory runs out they are made again with another one.
pub fn is_as_told(alloc: Global, steps: &[(Call, &[Put])]) -> Result<bool, Fail> {
    let outcome = match run(alloc, steps)? {
        Outcome::OutOfMemory => run(alloc, steps)?,
        other => other,
    };
    Ok(outcome == Outcome::AsTold)
}
