//! Steps of a CU-CP as tables: what it is given, and what it puts out.

use crate::tests_cu_control::few_messages::FewMessages;
use cu_control::CuControl;
use gnb_types::hex::{HexError, hex_bytes};
use gnb_types::inputs::{Input, Order};
use gnb_types::names::{BearerId, Dir, Gnb, NodeId, SnBits, UeId};
use gnb_types::octets::Octets;
use gnb_types::outputs::{Output, Outputs};
use gnb_types::plans::Plan;
use gnb_types::reasons::{CauseName, DropReason, RefuseReason};
use std::alloc::Global;
use unit_defs::StateName;
use unit_messages::steps::StepError;

pub const UE: UeId = UeId(1);

pub const UP: NodeId = NodeId::CuUp(Gnb::A, 1);

pub const DU: NodeId = NodeId::Du(Gnb::A, 1);

pub const OTHER: NodeId = NodeId::CuCp(Gnb::B);

/// Terminal 1 is served here, with one bearer; and by gNB B.
pub const HERE: Plan = Plan {
    ue: UE,
    gnb: Gnb::A,
    up: 1,
    du: 1,
    sn: SnBits::Len12,
    bearers: 1,
    quota: 64,
};

pub const THERE: Plan = Plan {
    ue: UE,
    gnb: Gnb::B,
    up: 1,
    du: 1,
    sn: SnBits::Len12,
    bearers: 1,
    quota: 64,
};

/// What the CU-CP is given, or how it is left. Octets are hexadecimal digits.
#[derive(Clone, Copy)]
pub enum Call {
    /// All units count as set up, and terminal 1 as served here.
    Place,
    Give(NodeId, &'static str),
    Tick,
    Order(Order),
    /// An item of a tunnel; a PDU of the radio, and that it is confirmed; a packet.
    Packet,
    Air,
    Ack,
    Offer,
    /// No step: terminal 1 is in this state, the greatest epoch that it was heard with is this, and whether nothing of it is open.
    Look(StateName, Option<u32>, bool),
}

/// What it puts out.
#[derive(Clone, Copy)]
pub enum Put {
    /// A message of this terminal, 0 for none.
    Say(NodeId, u8, &'static str),
    Drop(DropReason),
    Failed(CauseName),
    No(RefuseReason),
}

/// Octets by their digits. Where memory runs out they are asked for again: so the tests also pass where any one allocation fails.
fn octets_of(alloc: Global, text: &str) -> Result<Octets, HexError> {
    match hex_bytes(alloc, text.as_bytes()) {
        Ok(octets) => Ok(octets),
        Err(_) => hex_bytes(alloc, text.as_bytes()),
    }
}

fn is_octets(alloc: Global, octets: &Octets, text: &str) -> bool {
    match octets_of(alloc, text) {
        Ok(wanted) => octets.as_slice() == wanted.as_slice(),
        Err(_) => false,
    }
}

fn is_put(alloc: Global, output: &Output, put: &Put) -> bool {
    match (output, put) {
        (Output::Control { to, ue, bytes }, Put::Say(wanted, whose, text)) => {
            to == wanted && ue == whose && is_octets(alloc, bytes, text)
        }
        (Output::Drop(reason), Put::Drop(wanted)) => reason == wanted,
        (Output::FailedUe { ue, cause }, Put::Failed(wanted)) => *ue == UE && cause == wanted,
        (Output::No(reason), Put::No(wanted)) => reason == wanted,
        _ => false,
    }
}

fn are_puts(alloc: Global, outputs: &Outputs, puts: &[Put]) -> bool {
    if outputs.len() != puts.len() {
        return false;
    }
    for (output, put) in outputs.as_slice().iter().zip(puts.iter()) {
        if !is_put(alloc, output, put) {
            return false;
        }
    }
    true
}

fn input_of(alloc: Global, given: &Call) -> Result<Input, HexError> {
    let bearer = BearerId(1);
    let dir = Dir::Ul;
    let input = match given {
        Call::Give(from, text) => Input::Control {
            from: *from,
            bytes: octets_of(alloc, text)?,
        },
        Call::Order(order) => Input::Order(*order),
        Call::Packet => Input::Packet {
            teid: 1,
            bytes: Octets::new(alloc),
        },
        Call::Air => Input::Radio {
            ue: UE,
            bearer,
            dir,
            bytes: Octets::new(alloc),
        },
        Call::Ack => Input::Confirm {
            ue: UE,
            bearer,
            dir,
            bytes: Octets::new(alloc),
        },
        Call::Offer => Input::Offer {
            ue: UE,
            bearer,
            packet: octets_of(alloc, "45")?,
        },
        Call::Tick | Call::Place | Call::Look(..) => Input::Tick,
    };
    Ok(input)
}

/// How a step went, or a run.
#[derive(Clone, Copy, PartialEq, Eq)]
enum Outcome {
    /// It put out what it should.
    AsTold,
    Differs,
    /// Memory ran out, and the CU-CP answers that from then on.
    OutOfMemory,
}

fn outcome_if(good: bool, outcome: Outcome) -> Outcome {
    if good { outcome } else { Outcome::Differs }
}

/// Whether a CU-CP that ran out of memory answers the same from then on.
fn stays_failed(unit: &mut CuControl) -> bool {
    let stepped = match unit.step(&FewMessages, Input::Tick) {
        Err(StepError::Memory) => true,
        Ok(_) | Err(StepError::Spent { .. }) => false,
    };
    let placed = match unit.place_static(HERE) {
        Err(StepError::Memory) => true,
        Ok(()) | Err(StepError::Spent { .. }) => false,
    };
    stepped && placed
}

fn failure_outcome(unit: &mut CuControl, error: StepError) -> Outcome {
    match error {
        StepError::Memory => outcome_if(stays_failed(unit), Outcome::OutOfMemory),
        StepError::Spent { .. } => Outcome::Differs,
    }
}

fn place(unit: &mut CuControl) -> Outcome {
    unit.mark_set_up();
    match unit.place_static(HERE) {
        Ok(()) => outcome_if(
            unit.is_set_up(DU) && unit.place(UE) == Some((1, 1)),
            Outcome::AsTold,
        ),
        Err(error) => failure_outcome(unit, error),
    }
}

fn input_outcome(alloc: Global, unit: &mut CuControl, input: Input, puts: &[Put]) -> Outcome {
    match unit.step(&FewMessages, input) {
        Ok(outputs) => {
            let are_told = are_puts(alloc, &outputs, puts);
            drop(outputs);
            outcome_if(are_told, Outcome::AsTold)
        }
        Err(error) => failure_outcome(unit, error),
    }
}

fn step_outcome(alloc: Global, unit: &mut CuControl, given: &Call, puts: &[Put]) -> Outcome {
    if let Call::Place = given {
        return place(unit);
    }
    if let Call::Look(state, taken, rests) = given {
        let is_left = unit.state(UE) == *state && unit.taken(UE) == *taken;
        return outcome_if(is_left && unit.rests(UE) == *rests, Outcome::AsTold);
    }
    match input_of(alloc, given) {
        Ok(input) => input_outcome(alloc, unit, input, puts),
        Err(_) => Outcome::Differs,
    }
}

/// Whether a CU-CP puts out what it should in these steps.
fn outcome_of(alloc: Global, unit: &mut CuControl, steps: &[(Call, &[Put])]) -> Outcome {
    for (given, puts) in steps {
        let outcome = step_outcome(alloc, unit, given, puts);
        if outcome != Outcome::AsTold {
            return outcome;
        }
    }
    Outcome::AsTold
}

fn run(alloc: Global, steps: &[(Call, &[Put])]) -> Outcome {
    match CuControl::new(alloc, Gnb::A) {
        Ok(mut unit) => {
            let outcome = outcome_of(alloc, &mut unit, steps);
            drop(unit);
            outcome
        }
        Err(_) => Outcome::OutOfMemory,
    }
}

/// Whether a new CU-CP of gNB A puts out what it should in these steps. Where memory runs out they are made again with another one.
pub fn is_as_told(alloc: Global, steps: &[(Call, &[Put])]) -> bool {
    let outcome = match run(alloc, steps) {
        Outcome::OutOfMemory => run(alloc, steps),
        other => other,
    };
    outcome == Outcome::AsTold
}
