//! Control messages: requests, replies and transfers.

ghost use Rattle.std.specs.Prelude.{◌≡◌};
ghost use Rattle.gnb_types.specs.declared.inputs.Input.{Input};
ghost use Rattle.unit_defs.specs.Messages.{shares_interface};
ghost use Rattle.unit_defs.specs.Transactions.{kind_of, on_request, on_reply};
ghost use Rattle.unit_defs.specs.CuCpRecords.{with_transactions};
ghost use Rattle.unit_defs.specs.CuCp.{asked, reply_received, transferred, control_by, control_received};
ghost use Rattle.unit_defs.specs.octet_defs.Codec.{octet_way};
ghost use Rattle.unit_defs.specs.octet_defs.Units.{cu_cp_steps};
ghost use Rattle.unit_messages.specs.Messages.{message_as};
ghost use Rattle.unit_messages.specs.steps.Steps.{step_after, IsStep};

use crate::asked::asked;
use crate::replies::reply_received;
use crate::tokens::token_received;
use cu_cp_records::control_records::ControlRecord;
use cu_cp_rows::control_rows::is_same_gnb;
use gnb_types::keys::Channel;
use gnb_types::names::{Gnb, NodeId};
use gnb_types::octets::Octets;
use gnb_types::outputs::{Output, Outputs};
use gnb_types::reasons::DropReason;
use message_types::F1;
use std::alloc::Global;
use transactions::callee::Verdict;
use unit_messages::steps::StepError;
use unit_messages::{Kind, Message, MessageCodec};
use unit_requests::put;

/// Whether the CU-CP of this gNB shares an interface with a node (TS 38.401, 6.1.2).
fn shares_interface(gnb: Gnb, from: NodeId) -> bool
    ensures { result ≡ shares_interface (NodeId.CuCp gnb) from }
{
    match from {
        NodeId::CuCp(other) => !is_same_gnb(gnb, other),
        NodeId::CuUp(other, _) | NodeId::Du(other, _) => is_same_gnb(gnb, other),
        NodeId::Core => true,
        NodeId::Ue(_) => false,
    }
}

/// Octets of a control message: those of a node that shares no interface, and those that are no message, are dropped.
#[tactic(auto, unfolding(unit_defs::specs::octet_defs::Units::cu_cp_steps, unit_defs::specs::octet_defs::Reading::read_at_cu_cp, unit_defs::specs::CuCp::cu_cp_acts, unit_defs::specs::CuCp::control_received))]
pub(crate) fn octets_came<C: MessageCodec>(
    record: &mut ControlRecord,
    alloc: Global,
    codec: &C,
    from: NodeId,
    bytes: &Octets,
    outputs: &mut Outputs,
) -> Result<(), StepError>
    ensures { IsStep
        (step_after outputs.old (cu_cp_steps C.codec record.old (Input.Control from bytes.now)))
        outputs.new record.new result }
{
    let gnb = record.gnb();
    if !shares_interface(gnb, from) {
        return put(outputs, Output::Drop(DropReason::Unexpected));
    }
    match codec.read(alloc, from, NodeId::CuCp(gnb), bytes.as_slice())? {
        Ok(message) => {
            let acted = control_by(record, alloc, codec, from, &message, outputs);
            drop(message);
            acted
        }
        Err(reason) => put(outputs, Output::Drop(reason)),
    }
}

fn control_by<C: MessageCodec>(
    record: &mut ControlRecord,
    alloc: Global,
    codec: &C,
    from: NodeId,
    message: &Message,
    outputs: &mut Outputs,
) -> Result<(), StepError>
    ensures { IsStep
        (step_after outputs.old (control_by (octet_way C.codec) from (message_as message.now) record.old
        (kind_of (message_as message.now))))
        outputs.new record.new result }
{
    match message.kind() {
        Kind::Request { ue, instance } => {
            let channel = Channel { ue, peer: from };
            on_request(record, alloc, codec, channel, instance, message, outputs)
        }
        Kind::Reply { ue, instance } => {
            let channel = Channel { ue, peer: from };
            on_reply(record, alloc, codec, channel, instance, message, outputs)
        }
        Kind::Transfer { .. } => transferred(record, alloc, codec, from, message, outputs),
    }
}

/// A request is acted on once: the newest one is answered again with its reply, if one is kept; a lower one is stale.
#[tactic(auto, unfolding(unit_defs::specs::Transactions::on_request))]
fn on_request<C: MessageCodec>(
    record: &mut ControlRecord,
    alloc: Global,
    codec: &C,
    channel: Channel,
    instance: u32,
    message: &Message,
    outputs: &mut Outputs,
) -> Result<(), StepError>
    ensures { IsStep
        (step_after outputs.old (on_request (octet_way C.codec) record.old record.old.transactions
        channel instance
        (λ t. asked (octet_way C.codec) channel.peer (message_as message.now)
        (with_transactions record.old t))))
        outputs.new record.new result }
{
    match record.requests.accept(channel, instance)? {
        Verdict::New => asked(record, alloc, codec, channel.peer, message, outputs),
        Verdict::Again => record.requests.answer_again(alloc, channel, outputs),
        Verdict::Stale => put(outputs, Output::Drop(DropReason::Stale)),
    }
}

/// A reply that isn't awaited is stale.
#[tactic(auto, unfolding(unit_defs::specs::Transactions::on_reply))]
fn on_reply<C: MessageCodec>(
    record: &mut ControlRecord,
    alloc: Global,
    codec: &C,
    channel: Channel,
    instance: u32,
    message: &Message,
    outputs: &mut Outputs,
) -> Result<(), StepError>
    ensures { IsStep
        (step_after outputs.old (on_reply (octet_way C.codec) record.old record.old.transactions
        channel instance
        (reply_received (octet_way C.codec) (record { 0 = channel.ue }) channel instance
        (message_as message.now) record.old)))
        outputs.new record.new result }
{
    if !record.requests.is_awaited(&channel, instance) {
        return put(outputs, Output::Drop(DropReason::Stale));
    }
    reply_received(record, alloc, codec, channel, instance, message, outputs)
}

/// A message that is neither: a token of a terminal, by way of a DU.
fn transferred<C: MessageCodec>(
    record: &mut ControlRecord,
    alloc: Global,
    codec: &C,
    from: NodeId,
    message: &Message,
    outputs: &mut Outputs,
) -> Result<(), StepError>
    ensures { IsStep
        (step_after outputs.old
        (transferred (octet_way C.codec) from (message_as message.now) record.old))
        outputs.new record.new result }
{
    match message {
        Message::F1(F1::UlRrcMessageTransfer { ue, container }) => {
            token_received(record, alloc, codec, *ue, from, container, outputs)
        }
        Message::F1(
            F1::F1SetupRequest { .. }
            | F1::F1SetupResponse { .. }
            | F1::UeContextSetupRequest { .. }
            | F1::UeContextSetupResponse { .. }
            | F1::UeContextModificationRequest { .. }
            | F1::UeContextModificationResponse { .. }
            | F1::UeContextReleaseCommand { .. }
            | F1::UeContextReleaseComplete { .. }
            | F1::DlRrcMessageTransfer { .. },
        )
        | Message::E1(_)
        | Message::Xn(_)
        | Message::Core(_)
        | Message::Rrc(_) => put(outputs, Output::Drop(DropReason::Unexpected)),
    }
}
