//! Answers to the unit's own requests.

ghost use Rattle.std.specs.Prelude.{◌≡◌, ℕ, List, Some};
ghost use Rattle.unit_defs.specs.Ways as ways;
ghost use Rattle.unit_defs.specs.CuCp.{answers_none, answers_with, is_setup_failure, after_failed_setup, closed_at, answered_by, reply_received};
ghost use Rattle.unit_defs.specs.octet_defs.Codec.{octet_way};
ghost use Rattle.unit_messages.specs.Messages.{message_as};
ghost use Rattle.unit_messages.specs.steps.Steps.{step_after, IsStep};
ghost use Rattle.cu_cp_records.specs.control_actions.Rows.{row_as};

use crate::asked::at_of;
use crate::steps::{carry_out, put_next};
use cu_cp_answers::control_answers::{Answered, answer};
use cu_cp_records::control_actions::Row;
use cu_cp_records::control_records::ControlRecord;
use gnb_types::keys::Channel;
use gnb_types::names::UeId;
use gnb_types::outputs::{Output, Outputs};
use gnb_types::reasons::DropReason;
use message_types::E1Message;
use std::alloc::Global;
use unit_messages::steps::StepError;
use unit_messages::{Message, MessageCodec};
use unit_requests::waiting_requests::give_up_release;
use unit_requests::{Requests, put};

fn is_setup_failure<C: MessageCodec>(_codec: &C, message: &Message) -> bool
    ensures { result ≡ is_setup_failure (octet_way C.codec) (message_as message.now) }
{
    match message {
        Message::E1(E1Message::BearerContextSetupFailure { .. }) => true,
        Message::E1(
            E1Message::E1SetupRequest { .. }
            | E1Message::E1SetupResponse { .. }
            | E1Message::BearerContextSetupRequest { .. }
            | E1Message::BearerContextSetupResponse { .. }
            | E1Message::BearerContextModificationRequest { .. }
            | E1Message::BearerContextModificationResponse { .. }
            | E1Message::BearerContextModificationFailure { .. }
            | E1Message::BearerContextReleaseCommand { .. }
            | E1Message::BearerContextReleaseComplete { .. },
        )
        | Message::F1(_)
        | Message::Xn(_)
        | Message::Core(_)
        | Message::Rrc(_) => false,
    }
}

/// The open request of a channel is closed.
fn close<C: MessageCodec>(record: &mut ControlRecord, _codec: &C, channel: &Channel)
    ensures { record.new ≡ closed_at (octet_way C.codec) channel.now record.old }
{
    record.requests.close(channel);
}

/// Where a setup failed, the release that waits first is the one after it, and isn't needed.
fn after_failed_setup<C: MessageCodec>(
    requests: &mut Requests,
    codec: &C,
    channel: &Channel,
    message: &Message,
)
    ensures { requests.new
        ≡ after_failed_setup (octet_way C.codec) (message_as message.now) channel.now requests.old }
{
    if !is_setup_failure(codec, message) {
        return;
    }
    give_up_release(requests, channel);
}

/// No attempt awaits the answer: what waits longest is put, but no release after a setup that failed.
fn not_awaited<C: MessageCodec>(
    record: &mut ControlRecord,
    alloc: Global,
    codec: &C,
    channel: Channel,
    message: &Message,
    outputs: &mut Outputs,
) -> Result<(), StepError>
    ensures { IsStep
        (step_after outputs.old
        (answered_by (octet_way C.codec) (record { 0 = channel.ue }) channel
        (message_as message.now) record.old answers_none))
        outputs.new record.new result }
{
    close(record, codec, &channel);
    after_failed_setup(&mut record.requests, codec, &channel, message);
    put_next(record, alloc, codec, channel, outputs)
}

/// The row of an awaited answer is carried out, and what waits longest is put.
fn awaited<C: MessageCodec>(
    record: &mut ControlRecord,
    alloc: Global,
    codec: &C,
    channel: Channel,
    row: Row,
    outputs: &mut Outputs,
) -> Result<(), StepError>
    ensures { (message : ways.Message (List ℕ)) → IsStep
        (step_after outputs.old
        (answered_by (octet_way C.codec) (record { 0 = channel.ue }) channel message record.old
        (answers_with (Some (row_as row)))))
        outputs.new record.new result }
{
    close(record, codec, &channel);
    carry_out(record, alloc, codec, UeId(channel.ue), row, outputs)?;
    put_next(record, alloc, codec, channel, outputs)
}

/// An awaited answer closes its request; then its row is made, if the attempt awaits it, and what waits longest is put.
#[tactic(auto, unfolding(unit_defs::specs::CuCp::reply_received))]
pub(crate) fn reply_received<C: MessageCodec>(
    record: &mut ControlRecord,
    alloc: Global,
    codec: &C,
    channel: Channel,
    instance: u32,
    message: &Message,
    outputs: &mut Outputs,
) -> Result<(), StepError>
    ensures { IsStep
        (step_after outputs.old (reply_received (octet_way C.codec) (record { 0 = channel.ue }) channel
        instance (message_as message.now) record.old))
        outputs.new record.new result }
{
    let ue = UeId(channel.ue);
    let terminal = record.terminal(alloc, ue)?;
    let at = at_of(record, alloc, codec, ue);
    let answered = answer(&at, channel.peer, instance, message, &terminal);
    drop(terminal);
    match answered? {
        Answered::NotAwaited => { not_awaited(record, alloc, codec, channel, message, outputs) }
        Answered::Awaited(None) => put(outputs, Output::Drop(DropReason::Unexpected)),
        Answered::Awaited(Some(row)) => { awaited(record, alloc, codec, channel, row, outputs) }
    }
}
