//! RRC messages that a DU relays: containers to its terminals, and their tokens to the CU-CP (TS 38.473, 8.4).

ghost use Rattle.std.specs.Prelude.{◌≡◌};
ghost use Rattle.message_types.specs.declared.f1.F1.TheVariants as f1s;
ghost use Rattle.message_types.specs.declared.rrc.Token.{Token};
ghost use Rattle.unit_defs.specs.Ways.{f1, rrc};
ghost use Rattle.unit_defs.specs.Du.{relay_down, relay_up};
ghost use Rattle.unit_defs.specs.octet_defs.Codec.{Codec, octet_way};
ghost use Rattle.unit_messages.specs.steps.Steps.{IsStep, step_after};
ghost use Rattle.du_contexts.specs.Tables.{OctetDu, with_tables};

use crate::contexts::DuContexts;
use crate::packets::drop_input;
use gnb_types::names::{Gnb, NodeId, UeId};
use gnb_types::octets::Octets;
use gnb_types::outputs::{Output, Outputs};
use gnb_types::reasons::DropReason;
use std::alloc::Global;
use unit_messages::steps::StepError;

impl DuContexts {
    /// A container of the CU-CP goes to the terminal as it came.
    #[tactic(auto, unfolding(unit_defs::specs::Du::relay_down))]
    pub fn relay_down(
        &self,
        alloc: Global,
        ue: UeId,
        container: &[u8],
        outputs: &mut Outputs,
    ) -> Result<(), StepError>
        ensures { (codec : Codec) (r : OctetDu) → IsStep
            (step_after outputs.old (relay_down (octet_way codec) ue container.now (with_tables r self.now)))
            outputs.new (with_tables r self.now) result }
    {
        let Some(_) = self.contexts.get(&ue) else {
            return drop_input(outputs, DropReason::NoContext);
        };
        let bytes = Octets::from_slice(alloc, container)?;
        outputs.push(Output::Control {
            to: NodeId::Ue(ue.0),
            ue: ue.0,
            bytes,
        })?;
        Ok(())
    }

    /// A token of a terminal goes to the CU-CP of this gNB, in this message.
    #[tactic(auto, unfolding(unit_defs::specs::Du::relay_up))]
    pub fn relay_up(
        &self,
        gnb: Gnb,
        ue: UeId,
        message: Octets,
        outputs: &mut Outputs,
    ) -> Result<(), StepError>
        ensures { (codec : Codec) (r : OctetDu) (token : Token) → r.gnb ≡ gnb
            → message ≡ codec.encode (f1 (f1s.UlRrcMessageTransfer ue (codec.encode (rrc token))))
            → IsStep (step_after outputs.old (relay_up (octet_way codec) ue token (with_tables r self.now)))
            outputs.new (with_tables r self.now) result }
    {
        let Some(_) = self.contexts.get(&ue) else {
            return drop_input(outputs, DropReason::NoContext);
        };
        outputs.push(Output::Control {
            to: NodeId::CuCp(gnb),
            ue: ue.0,
            bytes: message,
        })?;
        Ok(())
    }
}
