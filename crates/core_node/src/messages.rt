//! Control messages that come to the core.

ghost use Rattle.std.specs.Prelude.{◌≡◌};
ghost use Rattle.gnb_types.specs.declared.names.NodeId.TheVariants.{Core};
ghost use Rattle.unit_defs.specs.Messages.{shares_interface};
ghost use Rattle.unit_defs.specs.Transactions.{kind_of, on_request};
ghost use Rattle.unit_defs.specs.Ways.{core};
ghost use Rattle.unit_defs.specs.Core.{asked, came, core_acts, switch_path};
ghost use Rattle.unit_defs.specs.octet_defs.Codec.{octet_way};
ghost use Rattle.unit_defs.specs.octet_defs.Units.{core_steps};
ghost use Rattle.unit_messages.specs.Messages.{message_as};
ghost use Rattle.unit_messages.specs.steps.Steps.{IsStep, step_after};

use crate::node::CoreNode;
use gnb_types::items::Items;
use gnb_types::keys::Channel;
use gnb_types::names::{NodeId, UeId};
use gnb_types::outputs::{Output, Outputs};
use gnb_types::plans::{Peer, TunnelList};
use gnb_types::reasons::DropReason;
use message_types::CoreMessage;
use std::alloc::Global;
use transactions::callee::Verdict;
use unit_messages::steps::StepError;
use unit_messages::{Kind, Message, MessageCodec};
use unit_requests::put;

/// A path switch that is asked for: whose downlink goes to which CU-UP, and to which N3 tunnel for each bearer.
#[derive(Clone, Copy)]
pub(crate) struct PathSwitch<'a> {
    pub(crate) channel: Channel,
    pub(crate) ue: UeId,
    pub(crate) instance: u32,
    pub(crate) peer: Peer,
    pub(crate) n3: &'a TunnelList,
}

/// Whether the core shares an interface with this node: with each CU-CP.
fn receives(from: NodeId) -> bool
    ensures { result ≡ shares_interface Core from }
{
    match from {
        NodeId::CuCp(_) => true,
        NodeId::CuUp(_, _) | NodeId::Du(_, _) | NodeId::Ue(_) | NodeId::Core => false,
    }
}

impl CoreNode {
    /// One step: what the core does with a control message, in octets. What it can't read it drops, and its record is as before.
    #[tactic(auto, unfolding(unit_defs::specs::octet_defs::Units::core_steps, unit_defs::specs::Core::core_acts))]
    pub fn step<C: MessageCodec>(
        &mut self,
        alloc: Global,
        codec: &C,
        from: NodeId,
        octets: &[u8],
        outputs: &mut Outputs,
    ) -> Result<(), StepError>
        ensures { IsStep
            (step_after outputs.old (core_steps C.codec self.old from octets.now)) outputs.new self.new result }
    {
        if !receives(from) {
            return put(outputs, Output::Drop(DropReason::Unexpected));
        }
        match codec.read(alloc, from, NodeId::Core, octets)? {
            Ok(message) => {
                let acted = self.message_came(alloc, codec, from, &message, outputs);
                drop(message);
                acted
            }
            Err(reason) => put(outputs, Output::Drop(reason)),
        }
    }

    #[tactic(auto, unfolding(unit_defs::specs::Core::core_acts))]
    fn message_came<C: MessageCodec>(
        &mut self,
        alloc: Global,
        codec: &C,
        from: NodeId,
        message: &Message,
        outputs: &mut Outputs,
    ) -> Result<(), StepError>
        ensures { IsStep
            (step_after outputs.old (core_acts (octet_way C.codec) self.old from (message_as message.now))) outputs.new self.new result }
    {
        match from {
            NodeId::CuCp(_) => self.came(alloc, codec, from, message, outputs),
            NodeId::CuUp(_, _) | NodeId::Du(_, _) | NodeId::Ue(_) | NodeId::Core => put(
                outputs,
                Output::Drop(DropReason::Unexpected),
            ),
        }
    }

    /// A message of a CU-CP, by its kind.
    fn came<C: MessageCodec>(
        &mut self,
        alloc: Global,
        codec: &C,
        from: NodeId,
        message: &Message,
        outputs: &mut Outputs,
    ) -> Result<(), StepError>
        ensures { IsStep
            (step_after outputs.old (came (octet_way C.codec) from (message_as message.now) self.old (kind_of (message_as message.now))))
            outputs.new self.new result }
    {
        match message.kind() {
            Kind::Request { ue, instance } => {
                let channel = Channel { ue, peer: from };
                self.request_came(alloc, codec, channel, instance, message, outputs)
            }
            Kind::Reply { .. } | Kind::Transfer { .. } => put(
                outputs,
                Output::Drop(DropReason::Unexpected),
            ),
        }
    }

    /// A request is acted on once: the newest one is answered again with its reply, and a lower one is stale.
    #[tactic(auto, unfolding(unit_defs::specs::Transactions::on_request))]
    fn request_came<C: MessageCodec>(
        &mut self,
        alloc: Global,
        codec: &C,
        channel: Channel,
        instance: u32,
        message: &Message,
        outputs: &mut Outputs,
    ) -> Result<(), StepError>
        ensures { IsStep
            (step_after outputs.old
            (on_request (octet_way C.codec) self.old self.old.transactions channel instance
            (λ t. asked (octet_way C.codec) channel (message_as message.now) (record self.old { transactions = t }))))
            outputs.new self.new result }
    {
        match self.requests.accept(channel, instance)? {
            Verdict::New => self.asked(alloc, codec, channel, message, outputs),
            Verdict::Again => self.requests.answer_again(alloc, channel, outputs),
            Verdict::Stale => put(outputs, Output::Drop(DropReason::Stale)),
        }
    }

    /// A request that is new.
    fn asked<C: MessageCodec>(
        &mut self,
        alloc: Global,
        codec: &C,
        channel: Channel,
        message: &Message,
        outputs: &mut Outputs,
    ) -> Result<(), StepError>
        ensures { IsStep
            (step_after outputs.old (asked (octet_way C.codec) channel (message_as message.now) self.old)) outputs.new self.new result }
    {
        match message {
            Message::Core(message) => self.core_asked(alloc, codec, channel, message, outputs),
            Message::F1(_) | Message::E1(_) | Message::Xn(_) | Message::Rrc(_) => {
                put(outputs, Output::Drop(DropReason::Unexpected))
            }
        }
    }

    fn core_asked<C: MessageCodec>(
        &mut self,
        alloc: Global,
        codec: &C,
        channel: Channel,
        message: &CoreMessage,
        outputs: &mut Outputs,
    ) -> Result<(), StepError>
        ensures { IsStep
            (step_after outputs.old (asked (octet_way C.codec) channel (core message.now) self.old)) outputs.new self.new result }
    {
        match message {
            CoreMessage::PathSwitchRequest {
                ue,
                instance,
                peer,
                n3,
            } => {
                let switch = PathSwitch {
                    channel,
                    ue: *ue,
                    instance: *instance,
                    peer: *peer,
                    n3,
                };
                self.switch_path(alloc, codec, switch, outputs)
            }
            CoreMessage::PathSwitchAcknowledge { .. } => {
                put(outputs, Output::Drop(DropReason::Unexpected))
            }
        }
    }

    /// Path Switch Request (TS 38.413, 8.4.4): it is acknowledged, and the downlink goes to the new tunnels.
    #[tactic(auto, unfolding(unit_defs::specs::Core::switch_path))]
    fn switch_path<C: MessageCodec>(
        &mut self,
        alloc: Global,
        codec: &C,
        switch: PathSwitch<'_>,
        outputs: &mut Outputs,
    ) -> Result<(), StepError>
        ensures { IsStep
            (step_after outputs.old
            (switch_path (octet_way C.codec) switch.entry.channel switch.entry.ue switch.entry.instance switch.entry.peer switch.entry.n3.now self.old))
            outputs.new self.new result }
    {
        let n3 = Items::from_slice(alloc, switch.n3.as_slice())?;
        let acknowledge = Message::Core(CoreMessage::PathSwitchAcknowledge {
            ue: switch.ue,
            instance: switch.instance,
        });
        let replied = self
            .requests
            .reply(alloc, codec, switch.channel, &acknowledge, outputs);
        drop(acknowledge);
        replied?;
        self.move_path(alloc, switch.ue, switch.peer, n3, outputs)
    }
}
