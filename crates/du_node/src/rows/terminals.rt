//! The contexts of terminals, as the CU-CP asks for them (TS 38.473, 8.3).

ghost use Rattle.std.specs.Prelude.{◌≡◌, ◌==◌};
ghost use Rattle.unit_defs.specs.Messages.{bearers_of, are_first_bearers};
ghost use Rattle.unit_defs.specs.Du.{replies, setup, modify, release};
ghost use Rattle.unit_defs.specs.octet_defs.Codec.{octet_way};
ghost use Rattle.unit_messages.specs.steps.Steps.{IsStep, step_after};

use crate::rows::record::DuRecord;
use du_contexts::making::ContextSetup;
use gnb_types::keys::Channel;
use gnb_types::names::UeId;
use gnb_types::outputs::{Output, Outputs};
use gnb_types::plans::Tunnel;
use gnb_types::reasons::DropReason;
use message_types::{F1, F1Message};
use std::alloc::Global;
use unit_messages::steps::StepError;
use unit_messages::{Message, MessageCodec};
use unit_requests::put;

/// A request for a terminal: the channel on which it came, and its instance.
#[derive(Clone, Copy)]
pub struct UeRequest {
    pub channel: Channel,
    pub ue: UeId,
    pub instance: u32,
}

/// Whether this is the tunnel of the bearer with this number.
fn is_bearer(tunnel: &Tunnel, number: u64) -> bool
    ensures { result ≡ (tunnel.now.bearer.0 == number) }
{
    u64::from(tunnel.bearer.0) == number
}

/// Whether these are the tunnels of the bearers 1, 2, 3 and so on.
fn are_first_bearers(tunnels: &[Tunnel]) -> bool
    ensures { result ≡ are_first_bearers (bearers_of tunnels.now) }
{
    let mut next = 1u64;
    for tunnel in tunnels {
        if !is_bearer(tunnel, next) {
            return false;
        }
        next += 1;
    }
    true
}

impl DuRecord {
    fn reply<C: MessageCodec>(
        &mut self,
        alloc: Global,
        codec: &C,
        channel: Channel,
        message: F1Message,
        outputs: &mut Outputs,
    ) -> Result<(), StepError>
        ensures { IsStep (step_after outputs.old (replies (octet_way C.codec) channel message self.old)) outputs.new self.new result }
    {
        let message = Message::F1(message);
        let replied = self
            .requests
            .reply(alloc, codec, channel, &message, outputs);
        drop(message);
        replied
    }

    /// UE Context Setup (8.3.1): the terminal gets a context with these uplinks, which replaces the one that it has, if any. It is
    /// ignored where the uplinks are not those of the bearers 1, 2, 3 and so on.
    #[tactic(auto, unfolding(unit_defs::specs::Du::setup))]
    pub fn setup<C: MessageCodec>(
        &mut self,
        alloc: Global,
        codec: &C,
        request: UeRequest,
        context: ContextSetup,
        uplinks: &[Tunnel],
        outputs: &mut Outputs,
    ) -> Result<(), StepError>
        ensures { IsStep
            (step_after outputs.old
            (setup (octet_way C.codec) request.channel request.ue request.instance context.epoch uplinks.now context.sn context.peer self.old))
            outputs.new self.new result }
    {
        if !are_first_bearers(uplinks) {
            return put(outputs, Output::Drop(DropReason::Unexpected));
        }
        let UeRequest {
            channel,
            ue,
            instance,
        } = request;
        self.contexts.set_up(alloc, ue, context, uplinks, outputs)?;
        let downlinks = self.contexts.downlinks(alloc, ue)?;
        let message = F1::UeContextSetupResponse {
            ue,
            instance,
            downlinks,
        };
        self.reply(alloc, codec, channel, message, outputs)
    }

    /// UE Context Modification (8.3.4): the radio of the terminal is that of this epoch now, and its bearers get new downlink tunnels.
    #[tactic(auto, unfolding(unit_defs::specs::Du::modify))]
    pub fn modify<C: MessageCodec>(
        &mut self,
        alloc: Global,
        codec: &C,
        request: UeRequest,
        epoch: u32,
        outputs: &mut Outputs,
    ) -> Result<(), StepError>
        ensures { IsStep
            (step_after outputs.old
            (modify (octet_way C.codec) request.channel request.ue request.instance epoch self.old))
            outputs.new self.new result }
    {
        let UeRequest {
            channel,
            ue,
            instance,
        } = request;
        let Some(_old) = self.contexts.epoch(ue) else {
            return put(outputs, Output::Drop(DropReason::NoContext));
        };
        self.contexts.renew(alloc, ue, epoch, outputs)?;
        let downlinks = self.contexts.downlinks(alloc, ue)?;
        let message = F1::UeContextModificationResponse {
            ue,
            instance,
            downlinks,
        };
        self.reply(alloc, codec, channel, message, outputs)
    }

    /// UE Context Release (8.3.3): it is answered; then the context is given back, if there is one.
    #[tactic(auto, unfolding(unit_defs::specs::Du::release))]
    pub fn release<C: MessageCodec>(
        &mut self,
        alloc: Global,
        codec: &C,
        request: UeRequest,
        outputs: &mut Outputs,
    ) -> Result<(), StepError>
        ensures { IsStep
            (step_after outputs.old
            (release (octet_way C.codec) request.channel request.ue request.instance self.old))
            outputs.new self.new result }
    {
        let UeRequest {
            channel,
            ue,
            instance,
        } = request;
        let message = F1::UeContextReleaseComplete { ue, instance };
        self.reply(alloc, codec, channel, message, outputs)?;
        self.contexts.release(alloc, ue, outputs)
    }
}
