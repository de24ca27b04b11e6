//! Control messages: of the CU-CP of the gNB, or of a terminal.

ghost use Rattle.std.specs.Prelude.{◌≡◌};
ghost use Rattle.gnb_types.specs.declared.inputs.Input.TheVariants as ins;
ghost use Rattle.unit_defs.specs.Ways.{f1, rrc};
ghost use Rattle.unit_defs.specs.Messages.{is_same_gnb, shares_interface};
ghost use Rattle.unit_defs.specs.Transactions.{kind_of, on_request, on_reply};
ghost use Rattle.unit_defs.specs.Du.{du_node, with_transactions, token_ue, asked, transferred, set_up, of_cu_cp, of_terminal, control_received};
ghost use Rattle.unit_defs.specs.octet_defs.Codec.{octet_way};
ghost use Rattle.unit_defs.specs.octet_defs.Units.{du_steps};
ghost use Rattle.unit_messages.specs.Messages.{message_as};
ghost use Rattle.unit_messages.specs.steps.Steps.{IsStep, step_after};

use crate::rows::record::DuRecord;
use crate::rows::terminals::UeRequest;
use du_contexts::making::ContextSetup;
use gnb_types::keys::Channel;
use gnb_types::names::{Gnb, NodeId, UeId};
use gnb_types::outputs::{Output, Outputs};
use gnb_types::reasons::DropReason;
use message_types::{F1, F1Message, Token};
use std::alloc::Global;
use transactions::callee::Verdict;
use unit_messages::steps::StepError;
use unit_messages::{Kind, Message, MessageCodec};
use unit_requests::put;

fn is_same_gnb(a: Gnb, b: Gnb) -> bool
    ensures { result ≡ is_same_gnb a b }
{
    match (a, b) {
        (Gnb::A, Gnb::A) | (Gnb::B, Gnb::B) => true,
        (Gnb::A, Gnb::B) | (Gnb::B, Gnb::A) => false,
    }
}

/// Whose a token is.
fn token_ue<C: MessageCodec>(_codec: &C, token: &Token) -> UeId
    ensures { result ≡ token_ue (octet_way C.codec) token.now }
{
    match token {
        Token::Command { ue, .. }
        | Token::Complete { ue, .. }
        | Token::Reestablish { ue, .. }
        | Token::Accepted { ue, .. } => *ue,
    }
}

impl DuRecord {
    /// Whether the DU shares an interface with this node: with the CU-CP of its gNB, and with each terminal.
    fn receives(&self, from: NodeId) -> bool
        ensures { result ≡ shares_interface (du_node self.now) from }
    {
        match from {
            NodeId::CuCp(gnb) => is_same_gnb(gnb, self.gnb),
            NodeId::Ue(_) => true,
            NodeId::CuUp(_, _) | NodeId::Du(_, _) | NodeId::Core => false,
        }
    }

    /// A control message, in octets.
    #[tactic(auto, unfolding(unit_defs::specs::octet_defs::Units::du_steps, unit_defs::specs::octet_defs::Reading::read_at_du))]
    pub fn control_received<C: MessageCodec>(
        &mut self,
        alloc: Global,
        codec: &C,
        from: NodeId,
        octets: &[u8],
        outputs: &mut Outputs,
    ) -> Result<(), StepError>
        ensures { IsStep
            (step_after outputs.old (du_steps C.codec self.old (ins.Control from octets.now))) outputs.new self.new result }
    {
        if !self.receives(from) {
            return put(outputs, Output::Drop(DropReason::Unexpected));
        }
        let own = self.node();
        match codec.read(alloc, from, own, octets)? {
            Ok(message) => {
                let acted = self.message_came(alloc, codec, from, &message, outputs);
                drop(message);
                acted
            }
            Err(reason) => put(outputs, Output::Drop(reason)),
        }
    }

    #[tactic(auto, unfolding(unit_defs::specs::Du::control_received))]
    fn message_came<C: MessageCodec>(
        &mut self,
        alloc: Global,
        codec: &C,
        from: NodeId,
        message: &Message,
        outputs: &mut Outputs,
    ) -> Result<(), StepError>
        ensures { IsStep
            (step_after outputs.old (control_received (octet_way C.codec) from (message_as message.now) self.old)) outputs.new self.new result }
    {
        match from {
            NodeId::CuCp(gnb) => {
                if is_same_gnb(gnb, self.gnb) {
                    return self.of_cu_cp(alloc, codec, from, message, outputs);
                }
                put(outputs, Output::Drop(DropReason::Unexpected))
            }
            NodeId::Ue(ue) => self.of_terminal(alloc, codec, ue, message, outputs),
            NodeId::CuUp(_, _) | NodeId::Du(_, _) | NodeId::Core => put(
                outputs,
                Output::Drop(DropReason::Unexpected),
            ),
        }
    }

    /// A message of the CU-CP, by its kind.
    fn of_cu_cp<C: MessageCodec>(
        &mut self,
        alloc: Global,
        codec: &C,
        from: NodeId,
        message: &Message,
        outputs: &mut Outputs,
    ) -> Result<(), StepError>
        ensures { IsStep
            (step_after outputs.old (of_cu_cp (octet_way C.codec) from (message_as message.now) self.old (kind_of (message_as message.now))))
            outputs.new self.new result }
    {
        match message.kind() {
            Kind::Request { ue, instance } => {
                let channel = Channel { ue, peer: from };
                self.request_came(alloc, codec, channel, instance, message, outputs)
            }
            Kind::Reply { ue, instance } => {
                let channel = Channel { ue, peer: from };
                self.reply_received(alloc, codec, channel, instance, outputs)
            }
            Kind::Transfer { .. } => self.transferred(alloc, codec, message, outputs),
        }
    }

    /// A request is acted on once: the newest one is answered again with its reply, and a lower one is stale.
    #[tactic(auto, unfolding(unit_defs::specs::Transactions::on_request))]
    fn request_came<C: MessageCodec>(
        &mut self,
        alloc: Global,
        codec: &C,
        channel: Channel,
        instance: u32,
        message: &Message,
        outputs: &mut Outputs,
    ) -> Result<(), StepError>
        ensures { IsStep
            (step_after outputs.old
            (on_request (octet_way C.codec) self.old self.old.transactions channel instance
            (λ t. asked (octet_way C.codec) channel (message_as message.now) (with_transactions self.old t))))
            outputs.new self.new result }
    {
        match self.requests.accept(channel, instance)? {
            Verdict::New => self.asked(alloc, codec, channel, message, outputs),
            Verdict::Again => self.requests.answer_again(alloc, channel, outputs),
            Verdict::Stale => put(outputs, Output::Drop(DropReason::Stale)),
        }
    }

    /// A reply that isn't awaited is stale.
    #[tactic(auto, unfolding(unit_defs::specs::Transactions::on_reply))]
    fn reply_received<C: MessageCodec>(
        &mut self,
        alloc: Global,
        codec: &C,
        channel: Channel,
        instance: u32,
        outputs: &mut Outputs,
    ) -> Result<(), StepError>
        ensures { IsStep
            (step_after outputs.old
            (on_reply (octet_way C.codec) self.old self.old.transactions channel instance
            (set_up (octet_way C.codec) channel self.old)))
            outputs.new self.new result }
    {
        if !self.requests.is_awaited(&channel, instance) {
            return put(outputs, Output::Drop(DropReason::Stale));
        }
        self.set_up(alloc, codec, channel, outputs)
    }

    /// A request of the CU-CP that is new.
    fn asked<C: MessageCodec>(
        &mut self,
        alloc: Global,
        codec: &C,
        channel: Channel,
        message: &Message,
        outputs: &mut Outputs,
    ) -> Result<(), StepError>
        ensures { IsStep
            (step_after outputs.old (asked (octet_way C.codec) channel (message_as message.now) self.old)) outputs.new self.new result }
    {
        match message {
            Message::F1(message) => self.f1_asked(alloc, codec, channel, message, outputs),
            Message::E1(_) | Message::Xn(_) | Message::Core(_) | Message::Rrc(_) => {
                put(outputs, Output::Drop(DropReason::Unexpected))
            }
        }
    }

    fn f1_asked<C: MessageCodec>(
        &mut self,
        alloc: Global,
        codec: &C,
        channel: Channel,
        message: &F1Message,
        outputs: &mut Outputs,
    ) -> Result<(), StepError>
        ensures { IsStep
            (step_after outputs.old (asked (octet_way C.codec) channel (f1 message.now) self.old)) outputs.new self.new result }
    {
        match message {
            F1::UeContextSetupRequest {
                ue,
                instance,
                epoch,
                uplinks,
                sn,
                peer,
            } => {
                let request = UeRequest {
                    channel,
                    ue: *ue,
                    instance: *instance,
                };
                let context = ContextSetup {
                    epoch: *epoch,
                    sn: *sn,
                    peer: *peer,
                };
                self.setup(alloc, codec, request, context, uplinks.as_slice(), outputs)
            }
            F1::UeContextModificationRequest {
                ue,
                instance,
                epoch,
            } => {
                let request = UeRequest {
                    channel,
                    ue: *ue,
                    instance: *instance,
                };
                self.modify(alloc, codec, request, *epoch, outputs)
            }
            F1::UeContextReleaseCommand { ue, instance } => {
                let request = UeRequest {
                    channel,
                    ue: *ue,
                    instance: *instance,
                };
                self.release(alloc, codec, request, outputs)
            }
            F1::F1SetupRequest { .. }
            | F1::F1SetupResponse { .. }
            | F1::UeContextSetupResponse { .. }
            | F1::UeContextModificationResponse { .. }
            | F1::UeContextReleaseComplete { .. }
            | F1::DlRrcMessageTransfer { .. }
            | F1::UlRrcMessageTransfer { .. } => put(outputs, Output::Drop(DropReason::Unexpected)),
        }
    }

    /// A message of the CU-CP that is answered by none.
    fn transferred<C: MessageCodec>(
        &mut self,
        alloc: Global,
        codec: &C,
        message: &Message,
        outputs: &mut Outputs,
    ) -> Result<(), StepError>
        ensures { IsStep
            (step_after outputs.old (transferred (octet_way C.codec) (message_as message.now) self.old)) outputs.new self.new result }
    {
        match message {
            Message::F1(message) => self.f1_transferred(alloc, codec, message, outputs),
            Message::E1(_) | Message::Xn(_) | Message::Core(_) | Message::Rrc(_) => {
                put(outputs, Output::Drop(DropReason::Unexpected))
            }
        }
    }

    fn f1_transferred<C: MessageCodec>(
        &mut self,
        alloc: Global,
        _codec: &C,
        message: &F1Message,
        outputs: &mut Outputs,
    ) -> Result<(), StepError>
        ensures { IsStep
            (step_after outputs.old (transferred (octet_way C.codec) (f1 message.now) self.old)) outputs.new self.new result }
    {
        match message {
            F1::DlRrcMessageTransfer { ue, container } => {
                self.relay_down(alloc, *ue, container.as_slice(), outputs)
            }
            F1::F1SetupRequest { .. }
            | F1::F1SetupResponse { .. }
            | F1::UeContextSetupRequest { .. }
            | F1::UeContextSetupResponse { .. }
            | F1::UeContextModificationRequest { .. }
            | F1::UeContextModificationResponse { .. }
            | F1::UeContextReleaseCommand { .. }
            | F1::UeContextReleaseComplete { .. }
            | F1::UlRrcMessageTransfer { .. } => put(outputs, Output::Drop(DropReason::Unexpected)),
        }
    }

    /// A message of a terminal.
    fn of_terminal<C: MessageCodec>(
        &mut self,
        alloc: Global,
        codec: &C,
        ue: u8,
        message: &Message,
        outputs: &mut Outputs,
    ) -> Result<(), StepError>
        ensures { IsStep
            (step_after outputs.old (of_terminal (octet_way C.codec) ue (message_as message.now) self.old)) outputs.new self.new result }
    {
        match message {
            Message::Rrc(token) => self.token_received(alloc, codec, ue, *token, outputs),
            Message::F1(_) | Message::E1(_) | Message::Xn(_) | Message::Core(_) => {
                put(outputs, Output::Drop(DropReason::Unexpected))
            }
        }
    }

    /// A token, which is its sender's.
    fn token_received<C: MessageCodec>(
        &mut self,
        alloc: Global,
        codec: &C,
        ue: u8,
        token: Token,
        outputs: &mut Outputs,
    ) -> Result<(), StepError>
        ensures { IsStep
            (step_after outputs.old (of_terminal (octet_way C.codec) ue (rrc token) self.old)) outputs.new self.new result }
    {
        let sender = token_ue(codec, &token);
        if sender.0 != ue {
            return put(outputs, Output::Drop(DropReason::Unexpected));
        }
        self.relay_up(alloc, codec, sender, token, outputs)
    }
}
