//! Control messages: of the CU-CP of the gNB.

ghost use Rattle.std.specs.Prelude.{◌≡◌};
ghost use Rattle.gnb_types.specs.declared.inputs.Input.TheVariants as ins;
ghost use Rattle.unit_defs.specs.codec_range_defs.Ranges.{IsInRange, IsE1InRange, ReadsInRange};
ghost use Rattle.unit_defs.specs.Ways.{e1};
ghost use Rattle.unit_defs.specs.Messages.{channel, is_same_gnb, shares_interface};
ghost use Rattle.unit_defs.specs.Transactions.{kind_of, on_request, on_reply};
ghost use Rattle.unit_defs.specs.CuUp.{up_node, with_transactions, asked, set_up, control_by, ue_in};
ghost use Rattle.unit_defs.specs.octet_defs.Codec.{octet_way};
ghost use Rattle.unit_defs.specs.octet_defs.Units.{cu_up_steps};
ghost use Rattle.unit_messages.specs.Messages.{message_as};
ghost use Rattle.unit_messages.specs.steps.Steps.{IsStep, step_after};

use crate::cu_up_rows::bearers::UeRequest;
use crate::cu_up_rows::modifying::Change;
use crate::cu_up_rows::record::CuUpRecord;
use cu_up_contexts::contexts::ContextSetup;
use gnb_types::keys::Channel;
use gnb_types::names::{Gnb, NodeId};
use gnb_types::outputs::{Output, Outputs};
use gnb_types::reasons::DropReason;
use message_types::E1Message;
use std::alloc::Global;
use transactions::callee::Verdict;
use unit_messages::steps::StepError;
use unit_messages::{Kind, Message, MessageCodec};
use unit_requests::put;

fn is_same_gnb(a: Gnb, b: Gnb) -> bool
    ensures { result ≡ is_same_gnb a b }
{
    match (a, b) {
        (Gnb::A, Gnb::A) | (Gnb::B, Gnb::B) => true,
        (Gnb::A, Gnb::B) | (Gnb::B, Gnb::A) => false,
    }
}

impl CuUpRecord {
    /// Whether the CU-UP shares an interface with this node: with the CU-CP of its gNB.
    fn receives(&self, from: NodeId) -> bool
        ensures { result ≡ shares_interface (up_node self.now) from }
    {
        match from {
            NodeId::CuCp(gnb) => is_same_gnb(gnb, self.gnb),
            NodeId::CuUp(_, _) | NodeId::Du(_, _) | NodeId::Ue(_) | NodeId::Core => false,
        }
    }

    /// A control message, in octets.
    #[tactic(auto, unfolding(unit_defs::specs::octet_defs::Units::cu_up_steps, unit_defs::specs::octet_defs::Reading::read_at_cu_up))]
    pub fn control_received<C: MessageCodec>(
        &mut self,
        alloc: Global,
        codec: &C,
        from: NodeId,
        octets: &[u8],
        outputs: &mut Outputs,
    ) -> Result<(), StepError>
        requires { ReadsInRange C.codec }
        ensures { IsStep
            (step_after outputs.old (cu_up_steps C.codec self.old (ins.Control from octets.now))) outputs.new self.new result }
    {
        if !self.receives(from) {
            return put(outputs, Output::Drop(DropReason::Unexpected));
        }
        let own = self.node();
        match codec.read(alloc, from, own, octets)? {
            Ok(message) => {
                let acted = self.message_came(alloc, codec, from, &message, outputs);
                drop(message);
                acted
            }
            Err(reason) => put(outputs, Output::Drop(reason)),
        }
    }

    /// A message of the CU-CP, by its kind.
    fn message_came<C: MessageCodec>(
        &mut self,
        alloc: Global,
        codec: &C,
        from: NodeId,
        message: &Message,
        outputs: &mut Outputs,
    ) -> Result<(), StepError>
        requires { IsInRange (message_as message.now) }
        ensures { IsStep
            (step_after outputs.old
            (control_by (octet_way C.codec) (channel (ue_in (octet_way C.codec) (kind_of (message_as message.now))) from) (message_as message.now) self.old
            (kind_of (message_as message.now))))
            outputs.new self.new result }
    {
        match message.kind() {
            Kind::Request { ue, instance } => {
                let channel = Channel { ue, peer: from };
                self.request_came(alloc, codec, channel, instance, message, outputs)
            }
            Kind::Reply { ue, instance } => {
                let channel = Channel { ue, peer: from };
                self.reply_received(alloc, codec, channel, instance, outputs)
            }
            Kind::Transfer { .. } => put(outputs, Output::Drop(DropReason::Unexpected)),
        }
    }

    /// A request is acted on once: the newest one is answered again with its reply, and a lower one is stale.
    #[tactic(auto, unfolding(unit_defs::specs::Transactions::on_request))]
    fn request_came<C: MessageCodec>(
        &mut self,
        alloc: Global,
        codec: &C,
        channel: Channel,
        instance: u32,
        message: &Message,
        outputs: &mut Outputs,
    ) -> Result<(), StepError>
        requires { IsInRange (message_as message.now) }
        ensures { IsStep
            (step_after outputs.old
            (on_request (octet_way C.codec) self.old self.old.transactions channel instance
            (λ t. asked (octet_way C.codec) channel (message_as message.now) (with_transactions self.old t))))
            outputs.new self.new result }
    {
        match self.requests.accept(channel, instance)? {
            Verdict::New => self.asked(alloc, codec, channel, message, outputs),
            Verdict::Again => self.requests.answer_again(alloc, channel, outputs),
            Verdict::Stale => put(outputs, Output::Drop(DropReason::Stale)),
        }
    }

    /// A reply that isn't awaited is stale.
    #[tactic(auto, unfolding(unit_defs::specs::Transactions::on_reply))]
    fn reply_received<C: MessageCodec>(
        &mut self,
        alloc: Global,
        codec: &C,
        channel: Channel,
        instance: u32,
        outputs: &mut Outputs,
    ) -> Result<(), StepError>
        ensures { IsStep
            (step_after outputs.old
            (on_reply (octet_way C.codec) self.old self.old.transactions channel instance
            (set_up (octet_way C.codec) channel self.old)))
            outputs.new self.new result }
    {
        if !self.requests.is_awaited(&channel, instance) {
            return put(outputs, Output::Drop(DropReason::Stale));
        }
        self.set_up(alloc, codec, channel, outputs)
    }

    /// A request of the CU-CP that is new.
    fn asked<C: MessageCodec>(
        &mut self,
        alloc: Global,
        codec: &C,
        channel: Channel,
        message: &Message,
        outputs: &mut Outputs,
    ) -> Result<(), StepError>
        requires { IsInRange (message_as message.now) }
        ensures { IsStep
            (step_after outputs.old (asked (octet_way C.codec) channel (message_as message.now) self.old)) outputs.new self.new result }
    {
        match message {
            Message::E1(message) => self.e1_asked(alloc, codec, channel, message, outputs),
            Message::F1(_) | Message::Xn(_) | Message::Core(_) | Message::Rrc(_) => {
                put(outputs, Output::Drop(DropReason::Unexpected))
            }
        }
    }

    fn e1_asked<C: MessageCodec>(
        &mut self,
        alloc: Global,
        codec: &C,
        channel: Channel,
        message: &E1Message,
        outputs: &mut Outputs,
    ) -> Result<(), StepError>
        requires { IsE1InRange message.now }
        ensures { IsStep
            (step_after outputs.old (asked (octet_way C.codec) channel (e1 message.now) self.old)) outputs.new self.new result }
    {
        match message {
            E1Message::BearerContextSetupRequest {
                ue,
                instance,
                bearers,
                sn,
                quota,
                forward,
            } => {
                let request = UeRequest {
                    channel,
                    ue: *ue,
                    instance: *instance,
                };
                let setup = ContextSetup {
                    sn: *sn,
                    quota: *quota,
                    target: *forward,
                    count: *bearers,
                };
                self.setup(alloc, codec, request, setup, outputs)
            }
            E1Message::BearerContextModificationRequest {
                ue,
                instance,
                downlinks,
                mode,
                peer,
                forward_down,
                forward_up,
                statuses,
                du,
            } => {
                let request = UeRequest {
                    channel,
                    ue: *ue,
                    instance: *instance,
                };
                let change = Change {
                    downlinks,
                    peer: *peer,
                    down: forward_down,
                    up: forward_up,
                    statuses,
                    du: *du,
                };
                self.modify(alloc, codec, request, *mode, change, outputs)
            }
            E1Message::BearerContextReleaseCommand {
                ue,
                instance,
                is_final,
            } => {
                let request = UeRequest {
                    channel,
                    ue: *ue,
                    instance: *instance,
                };
                self.release(alloc, codec, request, *is_final, outputs)
            }
            E1Message::E1SetupRequest { .. }
            | E1Message::E1SetupResponse { .. }
            | E1Message::BearerContextSetupResponse { .. }
            | E1Message::BearerContextSetupFailure { .. }
            | E1Message::BearerContextModificationResponse { .. }
            | E1Message::BearerContextModificationFailure { .. }
            | E1Message::BearerContextReleaseComplete { .. } => {
                put(outputs, Output::Drop(DropReason::Unexpected))
            }
        }
    }
}
