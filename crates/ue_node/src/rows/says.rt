//! What a terminal puts out in more than one row: why it ignores an input, why an event can't apply, and the token that it repeats.

ghost use Rattle.std.specs.Prelude.{◌≡◌, ◌++◌, ◌∷◌, [], OnOk, IfErr};
ghost use Rattle.gnb_types.specs.declared.outputs.Output.TheVariants as outs;
ghost use Rattle.unit_defs.specs.Ue.{said, token_of};
ghost use Rattle.unit_defs.specs.octet_defs.Codec.{octet_way};
ghost use Rattle.unit_defs.specs.octet_defs.Writing.{outputs_of};
ghost use Rattle.unit_messages.specs.declared.steps.StepError.TheVariants as step_errors;
ghost use Rattle.ue_node.specs.rows.Records.{record_of};

use crate::rows::record::UeRecord;
use gnb_types::items::Memory;
use gnb_types::outputs::{Output, Outputs};
use gnb_types::reasons::{DropReason, RefuseReason};
use message_types::Token;
use std::alloc::Global;
use unit_defs::TokenKind;
use unit_messages::steps::StepError;
use unit_messages::{Message, MessageCodec, encoded};

/// The input is ignored for this reason.
pub fn drop_input(out: &mut Outputs, reason: DropReason) -> Result<(), StepError>
    ensures ok { OnOk result (out.new ≡ out.old ++ outs.Drop reason ∷ []) }
    ensures err { IfErr result (λ e. e ≡ step_errors.Memory) }
{
    out.push(Output::Drop(reason))?;
    Ok(())
}

/// The event that asked for this can't apply.
pub(crate) fn refuse(out: &mut Outputs, reason: RefuseReason) -> Result<(), StepError>
    ensures ok { OnOk result (out.new ≡ out.old ++ outs.No reason ∷ []) }
    ensures err { IfErr result (λ e. e ≡ step_errors.Memory) }
{
    out.push(Output::No(reason))?;
    Ok(())
}

impl UeRecord {
    /// The token of this kind with the terminal's epoch.
    fn token_of<C: MessageCodec>(&self, _codec: &C, kind: TokenKind) -> Token
        ensures { result ≡ token_of (octet_way C.codec) (record_of self.now) kind }
    {
        let ue = self.plan.ue;
        let epoch = self.epoch;
        match kind {
            TokenKind::Complete => Token::Complete { ue, epoch },
            TokenKind::Reestablish => Token::Reestablish { ue, epoch },
        }
    }

    /// It says to its home what it repeats, if there is something.
    pub fn say<C: MessageCodec>(
        &self,
        alloc: Global,
        codec: &C,
        out: &mut Outputs,
    ) -> Result<(), Memory>
        ensures { OnOk result (out.new ≡ out.old
            ++ outputs_of (said (octet_way C.codec) (record_of self.now) self.now.token self.now.home)) }
    {
        let (Some(kind), Some(home)) = (self.token, self.home) else {
            return Ok(());
        };
        let message = Message::Rrc(self.token_of(codec, kind));
        let bytes = encoded(alloc, codec, message)?;
        out.push(Output::Control {
            to: home,
            ue: self.plan.ue.0,
            bytes,
        })
    }
}
