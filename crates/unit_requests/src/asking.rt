//! Requests: each is put at once, or waits for the one that is open.

ghost use Rattle.std.specs.Prelude.{◌≡◌, [], ◌∷◌, ◌++◌, IfOk, OnOk, IfNone};
ghost use Rattle.transaction_defs.specs.Callers.{begin, keep_request};
ghost use Rattle.unit_defs.specs.octet_defs.Codec.{octet_way};
ghost use Rattle.unit_defs.specs.Transactions.{with_instance, begin_request, ask, advance, ask_at_once};
ghost use Rattle.unit_messages.specs.steps.Steps.{step_after};
ghost use Rattle.unit_requests.specs.Requests.{AskGives, OpenGives};

use crate::putting::put_message;
use crate::requests::Requests;
use crate::waiting::Waiting;
use gnb_types::items::Memory;
use gnb_types::keys::Channel;
use gnb_types::outputs::{Output, Outputs};
use gnb_types::results::beside;
use std::alloc::Global;
use transactions::caller::{BeginError, Caller};
use unit_messages::MessageCodec;
use unit_messages::steps::StepError;

/// The number of the counter of instances.
const INSTANCES: u8 = 3;

/// Opens a request on a channel, and gives its instance. None where one is open.
fn open(
    caller: &mut Caller,
    channel: Channel,
    deadline: Option<u16>,
) -> Result<Option<u32>, StepError>
    ensures gives { OpenGives (begin caller.old channel deadline) caller.new result }
    ensures same { IfOk result (λ instance. IfNone instance (caller.new ≡ caller.old)) }
{
    match caller.begin(channel, deadline) {
        Ok(instance) => Ok(Some(instance)),
        Err(BeginError::Running) => Ok(None),
        Err(BeginError::Spent) => Err(StepError::Spent { counter: INSTANCES }),
        Err(BeginError::Memory) => Err(StepError::Memory),
    }
}

impl Requests {
    /// The open request of a channel is put with its instance, and kept to be put again.
    fn put_request<C: MessageCodec>(
        &mut self,
        alloc: Global,
        codec: &C,
        channel: Channel,
        waiting: Waiting,
        instance: u32,
        outputs: &mut Outputs,
    ) -> Result<(), Memory>
        ensures kept { OnOk result (self.new ≡ record self.old {
          caller =
              keep_request self.old.caller channel (C.codec.encode (with_instance instance waiting.message));
        }) }
        ensures put { OnOk result (outputs.new ≡ outputs.old
            ++ Output.Control channel.peer channel.ue (C.codec.encode (with_instance instance waiting.message)) ∷ []) }
    {
        let message = waiting.message.with_instance(instance);
        let kept = put_message(alloc, codec, channel, &message, outputs);
        drop(message);
        self.caller.keep_request(&channel, kept?);
        Ok(())
    }

    /// A request is put with the next instance of its channel. The answer is the instance, where an attempt awaits the reply to it.
    #[tactic(auto, unfolding(unit_defs::specs::Transactions::begin_request))]
    pub fn begin_request<C: MessageCodec>(
        &mut self,
        alloc: Global,
        codec: &C,
        channel: Channel,
        waiting: Waiting,
        outputs: &mut Outputs,
    ) -> Result<Option<u32>, StepError>
        ensures { AskGives
            (step_after outputs.old (begin_request (octet_way C.codec) self.old channel waiting))
            outputs.new self.new result }
    {
        let awaited = waiting.awaited;
        let opened = open(&mut self.caller, channel, waiting.deadline);
        let (opened, waiting) = beside(opened, waiting)?;
        let Some(instance) = opened else {
            drop(waiting);
            return Ok(None);
        };
        self.put_request(alloc, codec, channel, waiting, instance, outputs)?;
        if awaited {
            return Ok(Some(instance));
        }
        Ok(None)
    }

    /// A request is put, or waits while one is open for the same peer and terminal, or while others wait.
    #[tactic(auto, unfolding(unit_defs::specs::Transactions::ask))]
    pub fn ask<C: MessageCodec>(
        &mut self,
        alloc: Global,
        codec: &C,
        channel: Channel,
        waiting: Waiting,
        outputs: &mut Outputs,
    ) -> Result<Option<u32>, StepError>
        ensures { AskGives
            (step_after outputs.old (ask (octet_way C.codec) self.old channel waiting))
            outputs.new self.new result }
    {
        if self.caller.is_open(&channel) || self.has_waiting(&channel) {
            self.wait(alloc, channel, waiting)?;
            return Ok(None);
        }
        self.begin_request(alloc, codec, channel, waiting, outputs)
    }

    /// What waits longest on this channel is put, where none is open any more.
    #[tactic(auto, unfolding(unit_defs::specs::Transactions::advance))]
    pub fn advance<C: MessageCodec>(
        &mut self,
        alloc: Global,
        codec: &C,
        channel: Channel,
        outputs: &mut Outputs,
    ) -> Result<Option<u32>, StepError>
        ensures { AskGives
            (step_after outputs.old (advance (octet_way C.codec) self.old channel))
            outputs.new self.new result }
    {
        if self.caller.is_open(&channel) {
            return Ok(None);
        }
        let Some(waiting) = self.take_waiting(&channel) else {
            return Ok(None);
        };
        self.begin_request(alloc, codec, channel, waiting, outputs)
    }

    /// A request goes before all else: what is open on its channel is closed, and what waits there is given up.
    #[tactic(auto, unfolding(unit_defs::specs::Transactions::ask_at_once, unit_defs::specs::Transactions::with_waiting))]
    pub fn ask_at_once<C: MessageCodec>(
        &mut self,
        alloc: Global,
        codec: &C,
        channel: Channel,
        waiting: Waiting,
        outputs: &mut Outputs,
    ) -> Result<Option<u32>, StepError>
        ensures { AskGives
            (step_after outputs.old (ask_at_once (octet_way C.codec) self.old channel waiting))
            outputs.new self.new result }
    {
        self.caller.close(&channel);
        self.waiting.take(&channel);
        self.begin_request(alloc, codec, channel, waiting, outputs)
    }
}
