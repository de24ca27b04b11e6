//! Which input goes to which row, and what is dropped before it comes to one.

ghost use Rattle.std.specs.Prelude.{◌≡◌, IfOk, OnOk};
ghost use Rattle.gnb_types.specs.declared.inputs.Input.TheVariants as ins;
ghost use Rattle.gnb_types.specs.declared.names.UeId.{UeId};
ghost use Rattle.unit_defs.specs.codec_defs.Reading.{ReadsPdus};
ghost use Rattle.unit_defs.specs.Ue.{ordered};
ghost use Rattle.unit_defs.specs.octet_defs.Codec.{Codec, octet_way};
ghost use Rattle.unit_defs.specs.octet_defs.Units.{ue_steps};
ghost use Rattle.unit_messages.specs.steps.Steps.{step_after, IsStep};
ghost use Rattle.ue_node.specs.rows.Records.{record_of, IsRecord};
ghost use Rattle.ue_node.specs.Nodes.{HasPacket, IsHeard, token_in};

use crate::rows::UeRecord;
use crate::rows::says::drop_input;
use gnb_types::inputs::{Input, Order};
use gnb_types::items::Memory;
use gnb_types::names::{BearerId, Dir, NodeId};
use gnb_types::outputs::Outputs;
use gnb_types::reasons::DropReason;
use link_packets::read_radio;
use message_types::Token;
use std::alloc::Global;
use unit_messages::steps::StepError;
use unit_messages::{Message, MessageCodec};

/// The token that a message is, None where it is another message.
fn token_in(message: &Message) -> Option<Token>
    ensures { result ≡ token_in message.now }
{
    match message {
        Message::Rrc(token) => Some(*token),
        Message::F1(_) | Message::E1(_) | Message::Xn(_) | Message::Core(_) => None,
    }
}

/// The token that octets of a node say to this terminal, or why they are dropped: it takes the tokens of a DU, and no other message.
#[tactic(auto, unfolding(unit_defs::specs::octet_defs::Units::ue_steps, unit_defs::specs::octet_defs::Reading::read_at_ue))]
fn read_token<C: MessageCodec>(
    record: &UeRecord,
    alloc: Global,
    codec: &C,
    from: NodeId,
    octets: &[u8],
) -> Result<Result<Token, DropReason>, Memory>
    ensures { IfOk result (λ answer. IsHeard C.codec (record_of record.now) from octets.now answer) }
{
    let NodeId::Du(_, _) = from else {
        return Ok(Err(DropReason::Unexpected));
    };
    let message = match codec.read(alloc, from, NodeId::Ue(record.plan.ue.0), octets)? {
        Ok(message) => message,
        Err(reason) => return Ok(Err(reason)),
    };
    match token_in(&message) {
        Some(token) => {
            drop(message);
            Ok(Ok(token))
        }
        None => {
            drop(message);
            Ok(Err(DropReason::Unexpected))
        }
    }
}

/// A control message.
fn take_control<C: MessageCodec>(
    record: &mut UeRecord,
    alloc: Global,
    codec: &C,
    from: NodeId,
    octets: &[u8],
    out: &mut Outputs,
) -> Result<(), StepError>
    requires { IsRecord record.old }
    ensures step { IsStep
        (step_after out.old (ue_steps C.codec (record_of record.old) (ins.Control from octets.now)))
        out.new (record_of record.new) result }
    ensures sound { OnOk result (IsRecord record.new) }
{
    match read_token(record, alloc, codec, from, octets)? {
        Ok(token) => record.told(alloc, token, out),
        Err(reason) => drop_input(out, reason),
    }
}

/// A PDU that the radio carried.
#[tactic(auto, unfolding(unit_defs::specs::octet_defs::Units::ue_steps, unit_defs::specs::octet_defs::Reading::read_at_ue))]
fn take_radio(
    record: &mut UeRecord,
    alloc: Global,
    bearer: BearerId,
    dir: Dir,
    octets: &[u8],
    out: &mut Outputs,
) -> Result<(), StepError>
    requires { IsRecord record.old }
    ensures step { (codec : Codec) (ue : UeId) → ReadsPdus codec → IsStep
        (step_after out.old (ue_steps codec (record_of record.old) (ins.Radio ue bearer dir octets.now)))
        out.new (record_of record.new) result }
    ensures sound { OnOk result (IsRecord record.new) }
{
    let Dir::Dl = dir else {
        return drop_input(out, DropReason::Unexpected);
    };
    match read_radio(record.plan.sn, octets) {
        Some(pdu) => record.take(alloc, bearer, pdu, out),
        None => drop_input(out, DropReason::Undecodable),
    }
}

/// A PDU that the radio carried is confirmed.
#[tactic(auto, unfolding(unit_defs::specs::octet_defs::Units::ue_steps, unit_defs::specs::octet_defs::Reading::read_at_ue))]
fn take_confirm(
    record: &mut UeRecord,
    alloc: Global,
    bearer: BearerId,
    dir: Dir,
    octets: &[u8],
    out: &mut Outputs,
) -> Result<(), StepError>
    requires { IsRecord record.old }
    ensures step { (codec : Codec) (ue : UeId) → ReadsPdus codec → IsStep
        (step_after out.old (ue_steps codec (record_of record.old) (ins.Confirm ue bearer dir octets.now)))
        out.new (record_of record.new) result }
    ensures sound { OnOk result (IsRecord record.new) }
{
    let Dir::Ul = dir else {
        return drop_input(out, DropReason::Unexpected);
    };
    match read_radio(record.plan.sn, octets) {
        Some(pdu) => record.confirm(alloc, bearer, pdu, out),
        None => drop_input(out, DropReason::Undecodable),
    }
}

/// An event asks for something.
fn take_order<C: MessageCodec>(
    record: &mut UeRecord,
    alloc: Global,
    codec: &C,
    order: Order,
    out: &mut Outputs,
) -> Result<(), StepError>
    requires { IsRecord record.old }
    ensures step { IsStep
        (step_after out.old (ordered (octet_way C.codec) order (record_of record.old)))
        out.new (record_of record.new) result }
    ensures sound { OnOk result (IsRecord record.new) }
{
    match order {
        Order::Arrive(_) => record.arrive(alloc, codec, out),
        Order::Return(_) => record.come_back(alloc, codec, out),
        Order::Fail(_) => record.fail(out),
        Order::Start
        | Order::Attach(_)
        | Order::Handover(_)
        | Order::Cancel(_)
        | Order::Release(_)
        | Order::Poll(_, _) => drop_input(out, DropReason::Unexpected),
    }
}

/// An input goes to the row that takes it.
#[tactic(auto, unfolding(unit_defs::specs::octet_defs::Units::ue_steps, unit_defs::specs::octet_defs::Reading::read_at_ue, unit_defs::specs::Ue::ue_acts))]
pub(crate) fn act<C: MessageCodec>(
    record: &mut UeRecord,
    alloc: Global,
    codec: &C,
    input: Input,
    out: &mut Outputs,
) -> Result<(), StepError>
    requires packet { HasPacket input }
    requires sound { IsRecord record.old }
    ensures step { ReadsPdus C.codec → IsStep
        (step_after out.old (ue_steps C.codec (record_of record.old) input))
        out.new (record_of record.new) result }
    ensures sound { OnOk result (IsRecord record.new) }
{
    match input {
        Input::Control { from, bytes } => {
            take_control(record, alloc, codec, from, bytes.as_slice(), out)
        }
        Input::Radio {
            bearer,
            dir,
            bytes,
            ..
        } => take_radio(record, alloc, bearer, dir, bytes.as_slice(), out),
        Input::Confirm {
            bearer,
            dir,
            bytes,
            ..
        } => take_confirm(record, alloc, bearer, dir, bytes.as_slice(), out),
        Input::Offer { bearer, packet, .. } => record.offer(alloc, bearer, packet, out),
        Input::Tick => {
            record.say(alloc, codec, out)?;
            Ok(())
        }
        Input::Order(order) => take_order(record, alloc, codec, order, out),
        Input::Packet { .. } => drop_input(out, DropReason::Unexpected),
    }
}
