//! Bearer Context Modification (TS 37.483, 8.3.2), by its mode.

ghost use Rattle.std.specs.Prelude.{◌≡◌, true, Some};
ghost use Rattle.unit_defs.specs.codec_range_defs.Ranges.{AreShortStatuses};
ghost use Rattle.message_types.specs.declared.e1.E1Message.TheVariants as e1s;
ghost use Rattle.cu_up_contexts.specs.bearer_context.Orders.{AreShort};
ghost use Rattle.unit_defs.specs.Messages.{cause_busy};
ghost use Rattle.unit_defs.specs.CuUp.{context_of, replies, modified, modify_on};
ghost use Rattle.unit_defs.specs.octet_defs.Codec.{Codec, octet_way};
ghost use Rattle.unit_messages.specs.steps.Steps.{IsStep, step_after};
ghost use Rattle.cu_user.specs.cu_up_rows.Modes.{refused_on, uplinks_on, switch_on, freeze_on, status_on, resume_on, may_serve, frozen_and_told};

use crate::cu_up_rows::bearers::{CAUSE_BUSY, UeRequest};
use crate::cu_up_rows::record::CuUpRecord;
use gnb_types::names::{NodeId, UeId};
use gnb_types::outputs::{Output, Outputs};
use gnb_types::plans::{Peer, SnStatus, StatusList, Tunnel, TunnelList};
use gnb_types::reasons::DropReason;
use message_types::E1Message;
use std::alloc::Global;
use unit_messages::MessageCodec;
use unit_messages::steps::StepError;
use unit_requests::put;

const MODE_UPLINKS: u32 = 0;

const MODE_SWITCH: u32 = 1;

const MODE_FREEZE: u32 = 2;

const MODE_STATUS: u32 = 3;

const MODE_RESUME: u32 = 4;

/// What a Bearer Context Modification Request has besides its terminal, instance and mode.
#[derive(Clone, Copy)]
pub struct Change<'a> {
    pub downlinks: &'a Option<TunnelList>,
    pub peer: Option<Peer>,
    pub down: &'a Option<TunnelList>,
    pub up: &'a Option<TunnelList>,
    pub statuses: &'a Option<StatusList>,
    pub du: Option<u8>,
}

impl CuUpRecord {
    /// What no row is for is dropped.
    fn refuse(&self, ue: UeId, outputs: &mut Outputs) -> Result<(), StepError>
        ensures { IsStep (step_after outputs.old (refused_on self.now (context_of self.now ue))) outputs.new self.now result }
    {
        if self.contexts.has(ue) {
            return put(outputs, Output::Drop(DropReason::Unexpected));
        }
        put(outputs, Output::Drop(DropReason::NoContext))
    }

    fn modified<C: MessageCodec>(
        &mut self,
        alloc: Global,
        codec: &C,
        request: UeRequest,
        uplinks: Option<TunnelList>,
        statuses: Option<StatusList>,
        outputs: &mut Outputs,
    ) -> Result<(), StepError>
        ensures { IsStep
            (step_after outputs.old (replies (octet_way C.codec) request.channel
            (modified (octet_way C.codec) request.ue request.instance uplinks statuses) self.old))
            outputs.new self.new result }
    {
        let message = E1Message::BearerContextModificationResponse {
            ue: request.ue,
            instance: request.instance,
            uplinks,
            statuses,
        };
        self.reply(alloc, codec, request.channel, message, outputs)
    }

    /// One more uplink tunnel for each bearer.
    fn add_uplinks<C: MessageCodec>(
        &mut self,
        alloc: Global,
        codec: &C,
        request: UeRequest,
        outputs: &mut Outputs,
    ) -> Result<(), StepError>
        ensures { IsStep
            (step_after outputs.old (uplinks_on C.codec request.channel request.ue request.instance self.old (context_of self.old request.ue)))
            outputs.new self.new result }
    {
        if !self.may_add(request.ue) {
            return self.refuse(request.ue, outputs);
        }
        let tunnels = self.contexts.add_uplinks(alloc, request.ue, outputs)?;
        self.modified(alloc, codec, request, Some(tunnels), None, outputs)
    }

    /// The frozen state ends, the terminal is there, and the downlink goes to this DU.
    fn switch<C: MessageCodec>(
        &mut self,
        alloc: Global,
        codec: &C,
        request: UeRequest,
        du: u8,
        downlinks: &[Tunnel],
        outputs: &mut Outputs,
    ) -> Result<(), StepError>
        ensures { IsStep
            (step_after outputs.old (switch_on C.codec request.channel request.ue request.instance (Some du) (Some downlinks.now) self.old
            (context_of self.old request.ue)))
            outputs.new self.new result }
    {
        if !self.may_switch(request.ue, downlinks) {
            return self.refuse(request.ue, outputs);
        }
        let du = NodeId::Du(self.gnb, du);
        self.contexts
            .switch(alloc, request.ue, du, downlinks, outputs)?;
        self.modified(alloc, codec, request, None, None, outputs)
    }

    fn fail_freeze<C: MessageCodec>(
        &mut self,
        alloc: Global,
        codec: &C,
        request: UeRequest,
        outputs: &mut Outputs,
    ) -> Result<(), StepError>
        ensures { IsStep
            (step_after outputs.old (replies (octet_way C.codec) request.channel
            (e1s.BearerContextModificationFailure request.ue request.instance cause_busy) self.old))
            outputs.new self.new result }
    {
        let message = E1Message::BearerContextModificationFailure {
            ue: request.ue,
            instance: request.instance,
            cause: CAUSE_BUSY,
        };
        self.reply(alloc, codec, request.channel, message, outputs)
    }

    /// All that is held goes to the peer, and the response says where it is to go on.
    fn freeze_known<C: MessageCodec>(
        &mut self,
        alloc: Global,
        codec: &C,
        request: UeRequest,
        peer: Peer,
        down: &[Tunnel],
        up: &[Tunnel],
        outputs: &mut Outputs,
    ) -> Result<(), StepError>
        requires { may_serve C.codec (context_of self.old request.ue) ≡ true }
        ensures { IsStep
            (step_after outputs.old (frozen_and_told C.codec request.channel request.ue request.instance peer down.now up.now self.old
            (context_of self.old request.ue)))
            outputs.new self.new result }
    {
        let statuses = self.statuses(alloc, request.ue)?;
        let peer = NodeId::CuUp(peer.gnb, peer.up);
        self.contexts
            .freeze(alloc, request.ue, peer, down, up, outputs)?;
        self.modified(alloc, codec, request, None, Some(statuses), outputs)
    }

    /// A target that has no status yet is busy; else all that is held goes to the peer.
    fn freeze<C: MessageCodec>(
        &mut self,
        alloc: Global,
        codec: &C,
        request: UeRequest,
        peer: Peer,
        down: &[Tunnel],
        up: &[Tunnel],
        outputs: &mut Outputs,
    ) -> Result<(), StepError>
        ensures { IsStep
            (step_after outputs.old (freeze_on C.codec request.channel request.ue request.instance (Some peer) (Some down.now) (Some up.now) self.old
            (context_of self.old request.ue)))
            outputs.new self.new result }
    {
        if !self.may_freeze(request.ue, down, up) {
            return self.refuse(request.ue, outputs);
        }
        if !self.may_serve(request.ue) {
            return self.fail_freeze(alloc, codec, request, outputs);
        }
        self.freeze_known(alloc, codec, request, peer, down, up, outputs)
    }

    /// The entities of the target begin where those of the source stood.
    fn take_status<C: MessageCodec>(
        &mut self,
        alloc: Global,
        codec: &C,
        request: UeRequest,
        statuses: &[SnStatus],
        outputs: &mut Outputs,
    ) -> Result<(), StepError>
        requires { AreShort statuses.now }
        ensures { IsStep
            (step_after outputs.old (status_on C.codec request.channel request.ue request.instance (Some statuses.now) self.old
            (context_of self.old request.ue)))
            outputs.new self.new result }
    {
        if !self.may_know(request.ue, statuses) {
            return self.refuse(request.ue, outputs);
        }
        self.contexts
            .take_status(alloc, request.ue, statuses, outputs)?;
        self.modified(alloc, codec, request, None, None, outputs)
    }

    /// The source goes on.
    fn resume<C: MessageCodec>(
        &mut self,
        alloc: Global,
        codec: &C,
        request: UeRequest,
        outputs: &mut Outputs,
    ) -> Result<(), StepError>
        ensures { IsStep
            (step_after outputs.old (resume_on C.codec request.channel request.ue request.instance self.old (context_of self.old request.ue)))
            outputs.new self.new result }
    {
        if !self.may_resume(request.ue) {
            return self.refuse(request.ue, outputs);
        }
        self.contexts.resume(alloc, request.ue, outputs)?;
        self.modified(alloc, codec, request, None, None, outputs)
    }

    /// A switch, which lacks nothing that it uses.
    fn switch_if<C: MessageCodec>(
        &mut self,
        alloc: Global,
        codec: &C,
        request: UeRequest,
        change: Change<'_>,
        outputs: &mut Outputs,
    ) -> Result<(), StepError>
        ensures { IsStep
            (step_after outputs.old (switch_on C.codec request.channel request.ue request.instance change.entry.du change.entry.downlinks.now self.old
            (context_of self.old request.ue)))
            outputs.new self.new result }
    {
        match (change.du, change.downlinks) {
            (Some(du), Some(downlinks)) => {
                self.switch(alloc, codec, request, du, downlinks.as_slice(), outputs)
            }
            _ => self.refuse(request.ue, outputs),
        }
    }

    /// A freeze, which lacks nothing that it uses.
    fn freeze_if<C: MessageCodec>(
        &mut self,
        alloc: Global,
        codec: &C,
        request: UeRequest,
        change: Change<'_>,
        outputs: &mut Outputs,
    ) -> Result<(), StepError>
        ensures { IsStep
            (step_after outputs.old (freeze_on C.codec request.channel request.ue request.instance change.entry.peer change.entry.down.now
            change.entry.up.now self.old (context_of self.old request.ue)))
            outputs.new self.new result }
    {
        match (change.peer, change.down, change.up) {
            (Some(peer), Some(down), Some(up)) => self.freeze(
                alloc,
                codec,
                request,
                peer,
                down.as_slice(),
                up.as_slice(),
                outputs,
            ),
            _ => self.refuse(request.ue, outputs),
        }
    }

    /// A status, which lacks nothing that it uses.
    fn status_if<C: MessageCodec>(
        &mut self,
        alloc: Global,
        codec: &C,
        request: UeRequest,
        statuses: &Option<StatusList>,
        outputs: &mut Outputs,
    ) -> Result<(), StepError>
        requires { AreShortStatuses statuses.now }
        ensures { IsStep
            (step_after outputs.old (status_on C.codec request.channel request.ue request.instance statuses.now self.old
            (context_of self.old request.ue)))
            outputs.new self.new result }
    {
        match statuses {
            Some(statuses) => {
                self.take_status(alloc, codec, request, statuses.as_slice(), outputs)
            }
            None => self.refuse(request.ue, outputs),
        }
    }

    /// A Bearer Context Modification Request: what its mode asks for, where it lacks nothing and fits the state of the context.
    pub fn modify<C: MessageCodec>(
        &mut self,
        alloc: Global,
        codec: &C,
        request: UeRequest,
        mode: u32,
        change: Change<'_>,
        outputs: &mut Outputs,
    ) -> Result<(), StepError>
        requires { AreShortStatuses change.statuses.now }
        ensures { IsStep
            (step_after outputs.old (modify_on (octet_way C.codec) request.channel
            (e1s.BearerContextModificationRequest request.ue request.instance change.entry.downlinks.now mode change.entry.peer
            change.entry.down.now change.entry.up.now change.entry.statuses.now change.entry.du) self.old (context_of self.old request.ue)))
            outputs.new self.new result }
    {
        match mode {
            MODE_UPLINKS => self.add_uplinks(alloc, codec, request, outputs),
            MODE_SWITCH => self.switch_if(alloc, codec, request, change, outputs),
            MODE_FREEZE => self.freeze_if(alloc, codec, request, change, outputs),
            MODE_STATUS => self.status_if(alloc, codec, request, change.statuses, outputs),
            MODE_RESUME => self.resume(alloc, codec, request, outputs),
            _ => self.refuse(request.ue, outputs),
        }
    }
}
