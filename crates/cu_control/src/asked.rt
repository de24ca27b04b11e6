//! Requests of other nodes, each of which is new.

ghost use Rattle.std.specs.Prelude.{◌≡◌};
ghost use Rattle.unit_defs.specs.Ways.{f1, e1, xn};
ghost use Rattle.unit_defs.specs.Transactions.{replied};
ghost use Rattle.unit_defs.specs.CuCpRows.{offer, offer_context, status, xn_cancelled, xn_released};
ghost use Rattle.unit_defs.specs.CuCpRecords.{terminal_of};
ghost use Rattle.unit_defs.specs.CuCp.{at_of, set_up, by_row, asked};
ghost use Rattle.unit_defs.specs.octet_defs.Codec.{octet_way};
ghost use Rattle.unit_messages.specs.Messages.{message_as};
ghost use Rattle.unit_messages.specs.steps.Steps.{step_after, IsStep};

use crate::carrying::carry_made;
use cu_cp_records::control_actions::Scope;
use cu_cp_records::control_records::ControlRecord;
use cu_cp_records::status_copies::copy_statuses;
use cu_cp_rows::control_rows::xn_released;
use cu_cp_rows::control_targets::{Offered, offer, offer_context, status, xn_cancelled};
use gnb_types::keys::Channel;
use gnb_types::names::{NodeId, SnBits, UeId};
use gnb_types::outputs::{Output, Outputs};
use gnb_types::plans::StatusList;
use gnb_types::reasons::DropReason;
use message_types::{E1Message, F1, F1Message, XnMessage};
use std::alloc::Global;
use unit_messages::steps::StepError;
use unit_messages::{Message, MessageCodec};
use unit_requests::{Requests, put};

/// Where a row acts: this unit, for a terminal.
pub(crate) fn at_of<'a, C>(
    record: &'a ControlRecord,
    alloc: Global,
    codec: &'a C,
    ue: UeId,
) -> Scope<'a, C>
    ensures { result ≡ at_of record.now ue }
{
    Scope {
        alloc,
        codec,
        gnb: record.gnb(),
        ue,
        units: record.units(),
    }
}

/// A reply is put, and kept.
fn put_reply<C: MessageCodec>(
    requests: &mut Requests,
    alloc: Global,
    codec: &C,
    channel: Channel,
    reply: Message,
    outputs: &mut Outputs,
) -> Result<(), StepError>
    ensures { IsStep
        (step_after outputs.old
        (replied (octet_way C.codec) requests.old channel (message_as reply)))
        outputs.new requests.new result }
{
    let replied = requests.reply(alloc, codec, channel, &reply, outputs);
    drop(reply);
    replied
}

/// A unit is set up.
fn set_up<C: MessageCodec>(
    record: &mut ControlRecord,
    alloc: Global,
    codec: &C,
    from: NodeId,
    response: Message,
    outputs: &mut Outputs,
) -> Result<(), StepError>
    ensures { IsStep
        (step_after outputs.old
        (set_up (octet_way C.codec) from (message_as response) record.old))
        outputs.new record.new result }
{
    let channel = Channel { ue: 0, peer: from };
    put_reply(
        &mut record.requests,
        alloc,
        codec,
        channel,
        response,
        outputs,
    )?;
    record.set_up(from)?;
    Ok(())
}

/// The other gNB offers a terminal.
fn offered<C: MessageCodec>(
    record: &mut ControlRecord,
    alloc: Global,
    codec: &C,
    channel: Channel,
    offered: Offered,
    outputs: &mut Outputs,
) -> Result<(), StepError>
    ensures { IsStep
        (step_after outputs.old
        (by_row (octet_way C.codec) (record { 0 = channel.ue })
        (offer (octet_way C.codec) (at_of record.old (record { 0 = channel.ue })) channel.peer
        offered.instance
        (offer_context (octet_way C.codec) offered.up offered.du offered.instance offered.bearers
        offered.sn offered.quota offered.epoch)
        (terminal_of record.old (record { 0 = channel.ue }))) record.old))
        outputs.new record.new result }
{
    let ue = UeId(channel.ue);
    let terminal = record.terminal(alloc, ue)?;
    let at = at_of(record, alloc, codec, ue);
    let context = offer_context(&at, offered);
    let row = offer(&at, channel.peer, offered.instance, context, &terminal);
    drop(terminal);
    carry_made(record, alloc, codec, ue, row, outputs)
}

/// The source of a handover says the SN status.
fn status_came<C: MessageCodec>(
    record: &mut ControlRecord,
    alloc: Global,
    codec: &C,
    channel: Channel,
    instance: u32,
    statuses: &StatusList,
    outputs: &mut Outputs,
) -> Result<(), StepError>
    ensures { IsStep
        (step_after outputs.old
        (by_row (octet_way C.codec) (record { 0 = channel.ue })
        (status (octet_way C.codec) (at_of record.old (record { 0 = channel.ue })) channel.peer
        instance statuses.now (terminal_of record.old (record { 0 = channel.ue }))) record.old))
        outputs.new record.new result }
{
    let ue = UeId(channel.ue);
    let copied = copy_statuses(alloc, statuses)?;
    let terminal = record.terminal(alloc, ue)?;
    let at = at_of(record, alloc, codec, ue);
    let row = status(&at, channel.peer, instance, copied, &terminal);
    drop(terminal);
    carry_made(record, alloc, codec, ue, row, outputs)
}

/// The source of a handover cancels it.
fn cancelled<C: MessageCodec>(
    record: &mut ControlRecord,
    alloc: Global,
    codec: &C,
    channel: Channel,
    instance: u32,
    outputs: &mut Outputs,
) -> Result<(), StepError>
    ensures { IsStep
        (step_after outputs.old
        (by_row (octet_way C.codec) (record { 0 = channel.ue })
        (xn_cancelled (octet_way C.codec) (at_of record.old (record { 0 = channel.ue }))
        channel.peer instance (terminal_of record.old (record { 0 = channel.ue }))) record.old))
        outputs.new record.new result }
{
    let ue = UeId(channel.ue);
    let terminal = record.terminal(alloc, ue)?;
    let at = at_of(record, alloc, codec, ue);
    let row = xn_cancelled(&at, channel.peer, instance, &terminal);
    drop(terminal);
    carry_made(record, alloc, codec, ue, row, outputs)
}

/// The target of a handover has the terminal.
fn released<C: MessageCodec>(
    record: &mut ControlRecord,
    alloc: Global,
    codec: &C,
    channel: Channel,
    instance: u32,
    outputs: &mut Outputs,
) -> Result<(), StepError>
    ensures { IsStep
        (step_after outputs.old
        (by_row (octet_way C.codec) (record { 0 = channel.ue })
        (xn_released (octet_way C.codec) (at_of record.old (record { 0 = channel.ue }))
        channel.peer instance (terminal_of record.old (record { 0 = channel.ue }))) record.old))
        outputs.new record.new result }
{
    let ue = UeId(channel.ue);
    let terminal = record.terminal(alloc, ue)?;
    let at = at_of(record, alloc, codec, ue);
    let row = xn_released(&at, channel.peer, instance, &terminal);
    drop(terminal);
    carry_made(record, alloc, codec, ue, row, outputs)
}

/// A new request of another node.
pub(crate) fn asked<C: MessageCodec>(
    record: &mut ControlRecord,
    alloc: Global,
    codec: &C,
    from: NodeId,
    message: &Message,
    outputs: &mut Outputs,
) -> Result<(), StepError>
    ensures { IsStep
        (step_after outputs.old (asked (octet_way C.codec) from (message_as message.now) record.old))
        outputs.new record.new result }
{
    match message {
        Message::F1(message) => asked_by_du(record, alloc, codec, from, message, outputs),
        Message::E1(message) => asked_by_cu_up(record, alloc, codec, from, message, outputs),
        Message::Xn(message) => asked_on_xn(record, alloc, codec, from, message, outputs),
        Message::Core(_) | Message::Rrc(_) => put(outputs, Output::Drop(DropReason::Unexpected)),
    }
}

fn asked_by_du<C: MessageCodec>(
    record: &mut ControlRecord,
    alloc: Global,
    codec: &C,
    from: NodeId,
    message: &F1Message,
    outputs: &mut Outputs,
) -> Result<(), StepError>
    ensures { IsStep
        (step_after outputs.old
        (asked (octet_way C.codec) from (f1 message.now) record.old))
        outputs.new record.new result }
{
    match message {
        F1::F1SetupRequest { instance, .. } => {
            let response = Message::F1(F1::F1SetupResponse {
                instance: *instance,
            });
            set_up(record, alloc, codec, from, response, outputs)
        }
        F1::F1SetupResponse { .. }
        | F1::UeContextSetupRequest { .. }
        | F1::UeContextSetupResponse { .. }
        | F1::UeContextModificationRequest { .. }
        | F1::UeContextModificationResponse { .. }
        | F1::UeContextReleaseCommand { .. }
        | F1::UeContextReleaseComplete { .. }
        | F1::DlRrcMessageTransfer { .. }
        | F1::UlRrcMessageTransfer { .. } => put(outputs, Output::Drop(DropReason::Unexpected)),
    }
}

fn asked_by_cu_up<C: MessageCodec>(
    record: &mut ControlRecord,
    alloc: Global,
    codec: &C,
    from: NodeId,
    message: &E1Message,
    outputs: &mut Outputs,
) -> Result<(), StepError>
    ensures { IsStep
        (step_after outputs.old
        (asked (octet_way C.codec) from (e1 message.now) record.old))
        outputs.new record.new result }
{
    match message {
        E1Message::E1SetupRequest { instance, .. } => {
            let response = Message::E1(E1Message::E1SetupResponse {
                instance: *instance,
            });
            set_up(record, alloc, codec, from, response, outputs)
        }
        E1Message::E1SetupResponse { .. }
        | E1Message::BearerContextSetupRequest { .. }
        | E1Message::BearerContextSetupResponse { .. }
        | E1Message::BearerContextSetupFailure { .. }
        | E1Message::BearerContextModificationRequest { .. }
        | E1Message::BearerContextModificationResponse { .. }
        | E1Message::BearerContextModificationFailure { .. }
        | E1Message::BearerContextReleaseCommand { .. }
        | E1Message::BearerContextReleaseComplete { .. } => {
            put(outputs, Output::Drop(DropReason::Unexpected))
        }
    }
}

fn asked_on_xn<C: MessageCodec>(
    record: &mut ControlRecord,
    alloc: Global,
    codec: &C,
    from: NodeId,
    message: &XnMessage,
    outputs: &mut Outputs,
) -> Result<(), StepError>
    ensures { IsStep
        (step_after outputs.old
        (asked (octet_way C.codec) from (xn message.now) record.old))
        outputs.new record.new result }
{
    match message {
        XnMessage::HandoverRequest {
            ue,
            instance,
            epoch,
            bearers,
            sn,
            quota,
            peer,
            du,
            ..
        } => {
            let place = place_at(peer.up, *du, *instance, *epoch, *bearers, *sn, *quota);
            offered(record, alloc, codec, on(*ue, from), place, outputs)
        }
        XnMessage::SnStatusTransfer {
            ue,
            instance,
            statuses,
        } => {
            let channel = on(*ue, from);
            status_came(record, alloc, codec, channel, *instance, statuses, outputs)
        }
        XnMessage::HandoverCancel { ue, instance } => {
            cancelled(record, alloc, codec, on(*ue, from), *instance, outputs)
        }
        XnMessage::UeContextRelease { ue, instance } => {
            released(record, alloc, codec, on(*ue, from), *instance, outputs)
        }
        XnMessage::HandoverRequestAcknowledge { .. }
        | XnMessage::HandoverPreparationFailure { .. }
        | XnMessage::TransportConfirm { .. } => {
            put(outputs, Output::Drop(DropReason::Unexpected))
        }
    }
}

/// The place that a Handover Request names, and what it says of the terminal.
fn place_at(
    up: u8,
    du: u8,
    instance: u32,
    epoch: u32,
    bearers: u8,
    sn: SnBits,
    quota: u16,
) -> Offered
    ensures { result ≡ record {
      instance = instance;
      epoch = epoch;
      up = up;
      du = du;
      bearers = bearers;
      sn = sn;
      quota = quota;
    } }
{
    Offered {
        instance,
        epoch,
        up,
        du,
        bearers,
        sn,
        quota,
    }
}

/// The channel of a terminal and a peer.
fn on(ue: UeId, peer: NodeId) -> Channel
    ensures { result ≡ record { ue = ue.0; peer = peer } }
{
    Channel { ue: ue.0, peer }
}
