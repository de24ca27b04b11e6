//! What the radio gives a DU: PDUs that came up, and confirmations.

ghost use Rattle.std.specs.Prelude.{◌≡◌, ◌<◌, ◌≤◌, ◌^◌, length, Some, IfOk, IfErr, IfSome};
ghost use Rattle.gnb_types.specs.declared.inputs.Input.TheVariants as ins;
ghost use Rattle.gnb_types.specs.declared.names.Dir.TheVariants.{Dl, Ul};
ghost use Rattle.unit_defs.specs.octet_defs.Codec.{Codec};
ghost use Rattle.unit_defs.specs.octet_defs.Units.{du_steps};
ghost use Rattle.unit_defs.specs.codec_defs.Reading.{ReadsPdus};
ghost use Rattle.unit_messages.specs.steps.Steps.{IsStep, step_after};
ghost use Rattle.du_contexts.specs.Tables.{OctetDu, with_tables};
ghost use Rattle.du_contexts.specs.RadioPdus.{IsPdu, IsNoPdu};

use crate::contexts::DuContexts;
use crate::packets::{RadioKey, drop_input};
use gnb_types::names::UeId;
use gnb_types::outputs::Outputs;
use gnb_types::reasons::DropReason;
use link_packets::read_radio;
use pdcp::pdu::Pdu;
use std::alloc::Global;
use unit_messages::steps::StepError;

impl DuContexts {
    /// What a PDU of a radio is: the number of a packet, or None for a report; or why it is dropped.
    fn read_pdu(&self, ue: UeId, octets: &[u8]) -> Result<Option<u32>, DropReason>
        ensures ok { IfOk result (λ number. IsPdu self.now ue octets.now number) }
        ensures small { IfOk result (λ number. IfSome number (λ n. n < 2 ^ 24)) }
        ensures short { IfOk result (λ number. length octets.now ≤ 4096) }
        ensures err { IfErr result (IsNoPdu self.now ue octets.now) }
    {
        let Some(context) = self.contexts.get(&ue) else {
            return Err(DropReason::NoContext);
        };
        match read_radio(context.sn, octets) {
            Some(Pdu::Packet { sn, .. }) => Ok(Some(sn)),
            Some(Pdu::Report { .. }) => Ok(None),
            None => Err(DropReason::Undecodable),
        }
    }

    /// A PDU that the radio carried up.
    pub fn radio_came(
        &self,
        alloc: Global,
        key: RadioKey,
        octets: &[u8],
        outputs: &mut Outputs,
    ) -> Result<(), StepError>
        ensures { (codec : Codec) (r : OctetDu) → ReadsPdus codec → IsStep
            (step_after outputs.old (du_steps codec (with_tables r self.now) (ins.Radio key.ue key.bearer Ul octets.now)))
            outputs.new (with_tables r self.now) result }
    {
        match self.read_pdu(key.ue, octets) {
            Ok(_) => self.pass_up(alloc, key, octets, outputs),
            Err(reason) => drop_input(outputs, reason),
        }
    }

    /// A PDU that the radio carried down is confirmed.
    pub fn confirm_came(
        &self,
        alloc: Global,
        key: RadioKey,
        octets: &[u8],
        outputs: &mut Outputs,
    ) -> Result<(), StepError>
        ensures { (codec : Codec) (r : OctetDu) → ReadsPdus codec → IsStep
            (step_after outputs.old (du_steps codec (with_tables r self.now) (ins.Confirm key.ue key.bearer Dl octets.now)))
            outputs.new (with_tables r self.now) result }
    {
        match self.read_pdu(key.ue, octets) {
            Ok(number) => self.confirm(alloc, key, number, outputs),
            Err(reason) => drop_input(outputs, reason),
        }
    }
}
