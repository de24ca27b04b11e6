//! RRC messages (TS 38.473, 8.4).

ghost use Rattle.std.specs.Prelude.{◌≡◌};
ghost use Rattle.unit_defs.specs.Du.{relay_down, relay_up};
ghost use Rattle.unit_defs.specs.octet_defs.Codec.{Codec, octet_way};
ghost use Rattle.unit_messages.specs.steps.Steps.{IsStep, step_after};

use crate::rows::record::DuRecord;
use gnb_types::names::UeId;
use gnb_types::outputs::Outputs;
use message_types::{F1, Token};
use std::alloc::Global;
use unit_messages::steps::StepError;
use unit_messages::{Message, MessageCodec, encoded};

impl DuRecord {
    /// DL RRC Message Transfer: the container goes to the terminal as it came.
    pub fn relay_down(
        &self,
        alloc: Global,
        ue: UeId,
        container: &[u8],
        outputs: &mut Outputs,
    ) -> Result<(), StepError>
        ensures { (codec : Codec) → IsStep
            (step_after outputs.old (relay_down (octet_way codec) ue container.now self.now)) outputs.new self.now result }
    {
        self.contexts.relay_down(alloc, ue, container, outputs)
    }

    /// A token of a terminal goes to the CU-CP, in an UL RRC Message Transfer.
    pub fn relay_up<C: MessageCodec>(
        &self,
        alloc: Global,
        codec: &C,
        ue: UeId,
        token: Token,
        outputs: &mut Outputs,
    ) -> Result<(), StepError>
        ensures { IsStep
            (step_after outputs.old (relay_up (octet_way C.codec) ue token self.now)) outputs.new self.now result }
    {
        let container = encoded(alloc, codec, Message::Rrc(token))?;
        let transfer = Message::F1(F1::UlRrcMessageTransfer { ue, container });
        let message = encoded(alloc, codec, transfer)?;
        self.contexts.relay_up(self.gnb, ue, message, outputs)
    }
}
