//! Bearer Context Setup and Release (TS 37.483, 8.3.1, 8.3.5).

ghost use Rattle.std.specs.Prelude.{◌≡◌, ◌≤◌, IfOk};
ghost use Rattle.unit_defs.specs.codec_range_defs.Ranges.{IsSetupInRange};
ghost use Rattle.message_types.specs.declared.e1.E1Message.TheVariants as e1s;
ghost use Rattle.unit_defs.specs.CuUp.{context_of, forward_list, setup_response, replies, set_up_for, setup, release};
ghost use Rattle.unit_defs.specs.octet_defs.Codec.{Codec, octet_way};
ghost use Rattle.unit_messages.specs.steps.Steps.{IsStep, step_after};
ghost use Rattle.cu_up_contexts.specs.bearer_context.Answers.{tunnels_of};

use crate::cu_up_rows::record::CuUpRecord;
use cu_up_contexts::contexts::{Context, ContextSetup, Kind};
use gnb_types::items::Memory;
use gnb_types::keys::Channel;
use gnb_types::names::UeId;
use gnb_types::outputs::Outputs;
use gnb_types::plans::TunnelList;
use message_types::E1Message;
use std::alloc::Global;
use unit_messages::steps::StepError;
use unit_messages::{Message, MessageCodec};

/// The cause of a failure: no blocks are left for the quota.
const CAUSE_QUOTA: u32 = 0;

/// The cause of a failure: the terminal has a context, or one that isn't ready for it.
pub(crate) const CAUSE_BUSY: u32 = 1;

/// A request for a terminal: the channel on which it came, and its instance.
#[derive(Clone, Copy)]
pub struct UeRequest {
    pub channel: Channel,
    pub ue: UeId,
    pub instance: u32,
}

/// The tunnels of a kind, where they are asked for.
fn tunnels_if(
    alloc: Global,
    context: &Context,
    kind: Kind,
    asked: bool,
) -> Result<Option<TunnelList>, Memory>
    ensures { (codec : Codec) → IfOk result (λ tunnels. tunnels ≡ forward_list (octet_way codec) asked (tunnels_of codec kind context.now)) }
{
    if !asked {
        return Ok(None);
    }
    let tunnels = context.tunnels(alloc, kind)?;
    Ok(Some(tunnels))
}

/// The answer to a setup: the tunnels of the context.
fn setup_response(
    alloc: Global,
    context: &Context,
    request: UeRequest,
    forward: bool,
) -> Result<E1Message, Memory>
    ensures { (codec : Codec) → IfOk result (λ message. message
        ≡ setup_response (octet_way codec) request.ue request.instance forward context.now.bearers) }
{
    let uplinks = context.tunnels(alloc, Kind::F1uUplink)?;
    let n3 = context.tunnels(alloc, Kind::N3)?;
    let forward_down = tunnels_if(alloc, context, Kind::ForwardingDown, forward)?;
    let forward_up = tunnels_if(alloc, context, Kind::ForwardingUp, forward)?;
    Ok(E1Message::BearerContextSetupResponse {
        ue: request.ue,
        instance: request.instance,
        uplinks,
        n3,
        forward_down,
        forward_up,
    })
}

impl CuUpRecord {
    pub(crate) fn reply<C: MessageCodec>(
        &mut self,
        alloc: Global,
        codec: &C,
        channel: Channel,
        message: E1Message,
        outputs: &mut Outputs,
    ) -> Result<(), StepError>
        ensures { IsStep (step_after outputs.old (replies (octet_way C.codec) channel message self.old)) outputs.new self.new result }
    {
        let message = Message::E1(message);
        let replied = self
            .requests
            .reply(alloc, codec, channel, &message, outputs);
        drop(message);
        replied
    }

    fn fail_setup<C: MessageCodec>(
        &mut self,
        alloc: Global,
        codec: &C,
        request: UeRequest,
        cause: u32,
        outputs: &mut Outputs,
    ) -> Result<(), StepError>
        ensures { IsStep
            (step_after outputs.old (replies (octet_way C.codec) request.channel
            (e1s.BearerContextSetupFailure request.ue request.instance cause) self.old))
            outputs.new self.new result }
    {
        let message = E1Message::BearerContextSetupFailure {
            ue: request.ue,
            instance: request.instance,
            cause,
        };
        self.reply(alloc, codec, request.channel, message, outputs)
    }

    /// The tunnels of the new context are told.
    fn tell_setup<C: MessageCodec>(
        &mut self,
        alloc: Global,
        codec: &C,
        request: UeRequest,
        forward: bool,
        outputs: &mut Outputs,
    ) -> Result<(), StepError>
        ensures { IsStep
            (step_after outputs.old (set_up_for (octet_way C.codec) request.channel request.ue request.instance forward self.old
            (context_of self.old request.ue)))
            outputs.new self.new result }
    {
        let Some(context) = self.contexts.get(request.ue) else {
            return Ok(());
        };
        let message = setup_response(alloc, context, request, forward)?;
        self.reply(alloc, codec, request.channel, message, outputs)
    }

    /// Bearer Context Setup: busy, no quota, or a context.
    #[tactic(auto, unfolding(unit_defs::specs::CuUp::setup))]
    pub fn setup<C: MessageCodec>(
        &mut self,
        alloc: Global,
        codec: &C,
        request: UeRequest,
        context: ContextSetup,
        outputs: &mut Outputs,
    ) -> Result<(), StepError>
        requires { IsSetupInRange context.count context.quota }
        ensures { IsStep
            (step_after outputs.old
            (setup (octet_way C.codec) request.channel request.ue request.instance context.count context.sn context.quota context.target self.old))
            outputs.new self.new result }
    {
        if self.contexts.has(request.ue) {
            return self.fail_setup(alloc, codec, request, CAUSE_BUSY, outputs);
        }
        if !self.contexts.fits(context.count, context.quota) {
            return self.fail_setup(alloc, codec, request, CAUSE_QUOTA, outputs);
        }
        self.contexts.make(alloc, request.ue, &context, outputs)?;
        self.tell_setup(alloc, codec, request, context.target, outputs)
    }

    /// Bearer Context Release: it is answered; then the context ends, at once or where nothing comes any more.
    #[tactic(auto, unfolding(unit_defs::specs::CuUp::release))]
    pub fn release<C: MessageCodec>(
        &mut self,
        alloc: Global,
        codec: &C,
        request: UeRequest,
        is_final: bool,
        outputs: &mut Outputs,
    ) -> Result<(), StepError>
        ensures { IsStep
            (step_after outputs.old
            (release (octet_way C.codec) request.channel request.ue request.instance is_final self.old))
            outputs.new self.new result }
    {
        let message = E1Message::BearerContextReleaseComplete {
            ue: request.ue,
            instance: request.instance,
        };
        self.reply(alloc, codec, request.channel, message, outputs)?;
        self.contexts.release(alloc, request.ue, is_final, outputs)
    }
}
