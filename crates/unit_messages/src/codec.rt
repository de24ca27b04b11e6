//! What a unit asks of the codec of control messages.

ghost use Rattle.std.specs.Prelude.{◌≡◌, IfOk};
ghost use Rattle.unit_defs.specs.octet_defs.Codec.{Codec};
ghost use Rattle.unit_messages.specs.Messages.{message_as, answer_as};

use crate::message::Message;
use gnb_types::items::Memory;
use gnb_types::names::NodeId;
use gnb_types::octets::Octets;
use gnb_types::reasons::DropReason;
use message_types::Token;
use std::alloc::Global;

/// Reads and spells control messages. The member `codec` says which octets a message has, and what octets say: the rows of units
/// are stated over it. Memory is the one error of each call.
pub trait MessageCodec {
    ghost codec: { Codec };

    /// The octets of a message.
    fn encode(&self, alloc: Global, message: &Message) -> Result<Octets, Memory>
        ensures { IfOk result (λ octets. octets ≡ codec.encode (message_as message.now)) };

    /// The message that octets from one node to another say, or why they are dropped.
    fn read(
        &self,
        alloc: Global,
        from: NodeId,
        to: NodeId,
        octets: &[u8],
    ) -> Result<Result<Message, DropReason>, Memory>
        ensures { IfOk result (λ answer. answer_as answer ≡ codec.read from to octets.now) };

    /// The token in a container.
    fn read_token(&self, alloc: Global, container: &[u8]) -> Result<Option<Token>, Memory>
        ensures { IfOk result (λ token. token ≡ codec.read_token container.now) };
}

/// The octets of a message, which is let go.
pub fn encoded<C: MessageCodec>(
    alloc: Global,
    codec: &C,
    message: Message,
) -> Result<Octets, Memory>
    ensures { IfOk result (λ octets. octets ≡ C.codec.encode (message_as message)) }
{
    let octets = codec.encode(alloc, &message);
    drop(message);
    octets
}
