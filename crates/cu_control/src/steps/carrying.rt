//! What a row says is carried out.

ghost use Rattle.std.specs.Prelude.{◌≡◌, map, OnOk};
ghost use Rattle.unit_defs.specs.octet_defs.Codec.{octet_way};
ghost use Rattle.unit_defs.specs.CuCpRecords.{after_begun, noted, asks, cancels, replies, replies_late, sends, forgets, act_one, act_all, carry_out};
ghost use Rattle.unit_defs.specs.CuCp.{put_next};
ghost use Rattle.unit_messages.specs.Messages.{message_as};
ghost use Rattle.unit_messages.specs.steps.Steps.{step_after, IsStep};
ghost use Rattle.cu_cp_records.specs.control_actions.Rows.{row_as, action_as};

use crate::steps::terminals::{note_awaiting, note_begun};
use cu_cp_records::control_actions::Row;
use cu_cp_records::control_actions::actions::{Action, Actions};
use cu_cp_records::control_records::ControlRecord;
use gnb_types::items::Memory;
use gnb_types::keys::Channel;
use gnb_types::names::{NodeId, UeId};
use gnb_types::outputs::{Output, Outputs};
use gnb_types::results::beside;
use std::alloc::Global;
use std::collections::VecDeque;
use unit_messages::steps::StepError;
use unit_messages::{Message, MessageCodec};
use unit_requests::waiting_requests::forget;
use unit_requests::{Waiting, put};

/// The request on this channel was begun, if it was.
fn begun<C: MessageCodec>(
    record: &mut ControlRecord,
    alloc: Global,
    _codec: &C,
    channel: Channel,
    instance: Option<u32>,
) -> Result<(), Memory>
    ensures { OnOk result
        (record.new ≡ after_begun (octet_way C.codec) (record { 0 = channel.ue }) channel.peer
        record.old instance) }
{
    match instance {
        Some(instance) => note_begun(record, alloc, UeId(channel.ue), channel.peer, instance),
        None => Ok(()),
    }
}

/// The attempt awaits the answer to a request on this channel, if it does.
fn note<C: MessageCodec>(
    record: &mut ControlRecord,
    alloc: Global,
    _codec: &C,
    channel: Channel,
    awaited: bool,
) -> Result<(), Memory>
    ensures noted { OnOk result
        (record.new ≡ noted (octet_way C.codec) (record { 0 = channel.ue }) channel.peer awaited
        record.old) }
    ensures same { OnOk result (record.new.transactions ≡ record.old.transactions) }
{
    if awaited {
        return note_awaiting(record, alloc, UeId(channel.ue), channel.peer);
    }
    Ok(())
}

/// Lets go of a value. It is of any type, so that its caller has no path on which it lets go of what it has.
fn let_go<T: Drop>(_value: T) {}

#[tactic(auto, unfolding(unit_defs::specs::CuCpRecords::act_one))]
fn say_ask<C: MessageCodec>(
    record: &mut ControlRecord,
    alloc: Global,
    codec: &C,
    channel: Channel,
    waiting: Waiting,
    outputs: &mut Outputs,
) -> Result<(), StepError>
    ensures { IsStep
        (step_after outputs.old (act_one (octet_way C.codec) (record { 0 = channel.ue }) record.old
        (asks channel.peer waiting.message waiting.deadline waiting.awaited)))
        outputs.new record.new result }
{
    let noted = note(record, alloc, codec, channel, waiting.awaited);
    let (_, waiting) = beside(noted, waiting)?;
    let instance = record
        .requests
        .ask(alloc, codec, channel, waiting, outputs)?;
    begun(record, alloc, codec, channel, instance)?;
    Ok(())
}

#[tactic(auto, unfolding(unit_defs::specs::CuCpRecords::act_one))]
fn say_cancel<C: MessageCodec>(
    record: &mut ControlRecord,
    alloc: Global,
    codec: &C,
    channel: Channel,
    message: Message,
    outputs: &mut Outputs,
) -> Result<(), StepError>
    ensures { IsStep
        (step_after outputs.old (act_one (octet_way C.codec) (record { 0 = channel.ue }) record.old
        (cancels channel.peer (message_as message))))
        outputs.new record.new result }
{
    let waiting = Waiting {
        message,
        deadline: None,
        awaited: false,
    };
    let instance = record
        .requests
        .ask_at_once(alloc, codec, channel, waiting, outputs)?;
    begun(record, alloc, codec, channel, instance)?;
    Ok(())
}

#[tactic(auto, unfolding(unit_defs::specs::CuCpRecords::act_one))]
fn say_reply<C: MessageCodec>(
    record: &mut ControlRecord,
    alloc: Global,
    codec: &C,
    channel: Channel,
    message: Message,
    outputs: &mut Outputs,
) -> Result<(), StepError>
    ensures { IsStep
        (step_after outputs.old (act_one (octet_way C.codec) (record { 0 = channel.ue }) record.old
        (replies channel.peer (message_as message))))
        outputs.new record.new result }
{
    let result = record
        .requests
        .reply(alloc, codec, channel, &message, outputs);
    let_go(message);
    result?;
    Ok(())
}

#[tactic(auto, unfolding(unit_defs::specs::CuCpRecords::act_one))]
fn say_late_reply<C: MessageCodec>(
    record: &mut ControlRecord,
    alloc: Global,
    codec: &C,
    channel: Channel,
    instance: u32,
    message: Message,
    outputs: &mut Outputs,
) -> Result<(), StepError>
    ensures { IsStep
        (step_after outputs.old (act_one (octet_way C.codec) (record { 0 = channel.ue }) record.old
        (replies_late channel.peer instance (message_as message))))
        outputs.new record.new result }
{
    let result = record
        .requests
        .reply_late(alloc, codec, channel, instance, &message, outputs);
    let_go(message);
    result?;
    Ok(())
}

#[tactic(auto, unfolding(unit_defs::specs::CuCpRecords::act_one))]
fn say_message<C: MessageCodec>(
    record: &ControlRecord,
    alloc: Global,
    codec: &C,
    channel: Channel,
    message: Message,
    outputs: &mut Outputs,
) -> Result<(), StepError>
    ensures { IsStep
        (step_after outputs.old (act_one (octet_way C.codec) (record { 0 = channel.ue }) record.now
        (sends channel.peer (message_as message))))
        outputs.new record.now result }
{
    let bytes = codec.encode(alloc, &message);
    let_go(message);
    put(
        outputs,
        Output::Control {
            to: channel.peer,
            ue: channel.ue,
            bytes: bytes?,
        },
    )
}

#[tactic(auto, unfolding(unit_defs::specs::CuCpRecords::act_one))]
fn say_forget<C: MessageCodec>(
    record: &mut ControlRecord,
    alloc: Global,
    _codec: &C,
    ue: UeId,
    outputs: &mut Outputs,
) -> Result<(), StepError>
    ensures { IsStep
        (step_after outputs.old (act_one (octet_way C.codec) ue record.old forgets))
        outputs.new record.new result }
{
    forget(&mut record.requests, alloc, ue)?;
    Ok(())
}

/// One thing that a row says.
#[tactic(auto, unfolding(unit_defs::specs::CuCpRecords::act_one))]
fn act_one<C: MessageCodec>(
    record: &mut ControlRecord,
    alloc: Global,
    codec: &C,
    ue: UeId,
    say: Action,
    outputs: &mut Outputs,
) -> Result<(), StepError>
    ensures { IsStep
        (step_after outputs.old (act_one (octet_way C.codec) ue record.old (action_as say)))
        outputs.new record.new result }
{
    match say {
        Action::Ask {
            to,
            message,
            deadline,
            awaited,
        } => {
            let waiting = Waiting {
                message,
                deadline,
                awaited,
            };
            say_ask(record, alloc, codec, on(ue, to), waiting, outputs)
        }
        Action::Cancel { to, message } => {
            say_cancel(record, alloc, codec, on(ue, to), message, outputs)
        }
        Action::Reply { to, message } => {
            say_reply(record, alloc, codec, on(ue, to), message, outputs)
        }
        Action::ReplyLate {
            to,
            instance,
            message,
        } => say_late_reply(record, alloc, codec, on(ue, to), instance, message, outputs),
        Action::Send { to, message } => {
            say_message(record, alloc, codec, on(ue, to), message, outputs)
        }
        Action::Fail(cause) => put(outputs, Output::FailedUe { ue, cause }),
        Action::Ignore(reason) => put(outputs, Output::Drop(reason)),
        Action::Refuse(reason) => put(outputs, Output::No(reason)),
        Action::Forget => say_forget(record, alloc, codec, ue, outputs),
    }
}

/// The channel of a terminal and a peer.
fn on(ue: UeId, peer: NodeId) -> Channel
    ensures { result ≡ record { ue = ue.0; peer = peer } }
{
    Channel { ue: ue.0, peer }
}

/// All that a row says, in order.
fn act_all<C: MessageCodec>(
    record: &mut ControlRecord,
    alloc: Global,
    codec: &C,
    ue: UeId,
    actions: Actions,
    outputs: &mut Outputs,
) -> Result<(), StepError>
    ensures { IsStep
        (step_after outputs.old (act_all (octet_way C.codec) ue (map action_as actions) record.old))
        outputs.new record.new result }
{
    let mut left = VecDeque::from(actions.into_vec());
    while let Some(say) = left.pop_front() {
        act_one(record, alloc, codec, ue, say, outputs)?;
    }
    Ok(())
}

/// A row is carried out: what it keeps of the terminal is kept, and what it says is said.
#[tactic(auto, unfolding(unit_defs::specs::CuCpRecords::carry_out))]
pub fn carry_out<C: MessageCodec>(
    record: &mut ControlRecord,
    alloc: Global,
    codec: &C,
    ue: UeId,
    row: Row,
    outputs: &mut Outputs,
) -> Result<(), StepError>
    ensures { IsStep
        (step_after outputs.old (carry_out (octet_way C.codec) ue record.old (row_as row)))
        outputs.new record.new result }
{
    let Row { actions, after } = row;
    record.put_terminal(ue, after)?;
    act_all(record, alloc, codec, ue, actions, outputs)
}

/// What waits longest on a channel is put.
pub fn put_next<C: MessageCodec>(
    record: &mut ControlRecord,
    alloc: Global,
    codec: &C,
    channel: Channel,
    outputs: &mut Outputs,
) -> Result<(), StepError>
    ensures { IsStep
        (step_after outputs.old (put_next (octet_way C.codec) (record { 0 = channel.ue }) channel
        record.old))
        outputs.new record.new result }
{
    let instance = record.requests.advance(alloc, codec, channel, outputs)?;
    begun(record, alloc, codec, channel, instance)?;
    Ok(())
}
