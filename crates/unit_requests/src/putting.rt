//! Messages that are put.

ghost use Rattle.std.specs.Prelude.{◌≡◌, [], ◌∷◌, ◌++◌, IfOk, OnOk, IfErr};
ghost use Rattle.unit_messages.specs.declared.steps.StepError.TheVariants.{Memory as NoMemory};
ghost use Rattle.unit_messages.specs.Messages.{message_as};

use gnb_types::items::Memory;
use gnb_types::keys::Channel;
use gnb_types::octets::Octets;
use gnb_types::outputs::{Output, Outputs};
use std::alloc::Global;
use unit_messages::steps::StepError;
use unit_messages::{Message, MessageCodec};

/// Puts an output after the others.
pub fn put(outputs: &mut Outputs, output: Output) -> Result<(), StepError>
    ensures ok { OnOk result (outputs.new ≡ outputs.old ++ output ∷ []) }
    ensures err { IfErr result (λ e. e ≡ NoMemory) }
{
    outputs.push(output)?;
    Ok(())
}

/// Puts a message to the peer of a channel. The answer is its octets, to be kept.
pub(crate) fn put_message<C: MessageCodec>(
    alloc: Global,
    codec: &C,
    channel: Channel,
    message: &Message,
    outputs: &mut Outputs,
) -> Result<Octets, Memory>
    ensures kept { IfOk result (λ kept. kept ≡ C.codec.encode (message_as message.now)) }
    ensures put { OnOk result (outputs.new ≡ outputs.old
        ++ Output.Control channel.peer channel.ue (C.codec.encode (message_as message.now)) ∷ []) }
{
    let bytes = codec.encode(alloc, message)?;
    let kept = Octets::from_slice(alloc, bytes.as_slice())?;
    outputs.push(Output::Control {
        to: channel.peer,
        ue: channel.ue,
        bytes,
    })?;
    Ok(kept)
}
