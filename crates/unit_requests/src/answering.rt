//! Requests of other nodes, and the replies to them.

ghost use Rattle.std.specs.Prelude.{◌≡◌, ◌++◌, OnOk, IfErr};
ghost use Rattle.transaction_defs.specs.Callees.{kept_reply};
ghost use Rattle.unit_defs.specs.octet_defs.Codec.{octet_way};
ghost use Rattle.unit_messages.specs.Messages.{message_as};
ghost use Rattle.unit_defs.specs.Transactions.{replied, replied_late};
ghost use Rattle.unit_messages.specs.steps.Steps.{step_after, IsStep};
ghost use Rattle.unit_messages.specs.declared.steps.StepError.TheVariants.{Memory as NoMemory};
ghost use Rattle.unit_requests.specs.Requests.{AcceptGives, outputs_again};

use crate::putting::put_message;
use crate::requests::Requests;
use gnb_types::items::Memory;
use gnb_types::keys::Channel;
use gnb_types::octets::Octets;
use gnb_types::outputs::{Output, Outputs};
use std::alloc::Global;
use transactions::callee::Verdict;
use unit_messages::steps::StepError;
use unit_messages::{Message, MessageCodec};

impl Requests {
    /// Takes a request of another node: where it is new its instance is the newest one of its channel from here on.
    #[tactic(auto, using(crate::proofs::Verdicts::accept_gives))]
    pub fn accept(&mut self, channel: Channel, instance: u32) -> Result<Verdict, Memory>
        ensures { AcceptGives self.old channel instance self.new result }
    {
        self.callee.accept(channel, instance)
    }

    /// The newest request of this channel came again: its reply is put again, if one is kept.
    pub fn answer_again(
        &self,
        alloc: Global,
        channel: Channel,
        outputs: &mut Outputs,
    ) -> Result<(), StepError>
        ensures ok { OnOk result
            (outputs.new ≡ outputs.old ++ outputs_again channel (kept_reply self.now.callee channel)) }
        ensures err { IfErr result (λ e. e ≡ NoMemory) }
    {
        let Some(kept) = self.callee.kept(&channel) else {
            return Ok(());
        };
        let bytes = Octets::from_slice(alloc, kept.as_slice())?;
        outputs.push(Output::Control {
            to: channel.peer,
            ue: channel.ue,
            bytes,
        })?;
        Ok(())
    }

    /// The reply to the newest request of this channel is put, and kept.
    #[tactic(auto, unfolding(unit_defs::specs::Transactions::replied))]
    pub fn reply<C: MessageCodec>(
        &mut self,
        alloc: Global,
        codec: &C,
        channel: Channel,
        message: &Message,
        outputs: &mut Outputs,
    ) -> Result<(), StepError>
        ensures { IsStep
            (step_after outputs.old
            (replied (octet_way C.codec) self.old channel (message_as message.now)))
            outputs.new self.new result }
    {
        let kept = put_message(alloc, codec, channel, message, outputs)?;
        self.callee.keep(&channel, kept);
        Ok(())
    }

    /// A reply that comes later than the step that took its request is put. It is kept where its instance is still the newest one.
    #[tactic(auto, unfolding(unit_defs::specs::Transactions::replied_late))]
    pub fn reply_late<C: MessageCodec>(
        &mut self,
        alloc: Global,
        codec: &C,
        channel: Channel,
        instance: u32,
        message: &Message,
        outputs: &mut Outputs,
    ) -> Result<(), StepError>
        ensures { IsStep
            (step_after outputs.old
            (replied_late (octet_way C.codec) self.old channel instance (message_as message.now)))
            outputs.new self.new result }
    {
        let kept = put_message(alloc, codec, channel, message, outputs)?;
        self.callee.keep_for(&channel, instance, kept);
        Ok(())
    }
}
