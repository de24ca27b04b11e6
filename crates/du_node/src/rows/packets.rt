//! Packets: items of downlink tunnels, and PDUs of the radio (TS 38.425, 5.4; TS 38.401, 6.1.2).

ghost use Rattle.gnb_types.specs.declared.inputs.Input.TheVariants as ins;
ghost use Rattle.gnb_types.specs.declared.names.Dir.TheVariants.{Dl, Ul};
ghost use Rattle.unit_defs.specs.octet_defs.Codec.{Codec};
ghost use Rattle.unit_defs.specs.octet_defs.Units.{du_steps};
ghost use Rattle.unit_defs.specs.codec_defs.Reading.{ReadsItems, ReadsPdus};
ghost use Rattle.unit_messages.specs.steps.Steps.{IsStep, step_after};

use crate::rows::record::DuRecord;
use du_contexts::packets::RadioKey;
use gnb_types::outputs::Outputs;
use std::alloc::Global;
use unit_messages::steps::StepError;

impl DuRecord {
    /// An item of a downlink tunnel: a loss is told and a poll is answered, then its PDU goes to the radio.
    pub fn take(
        &mut self,
        alloc: Global,
        teid: u32,
        octets: &[u8],
        outputs: &mut Outputs,
    ) -> Result<(), StepError>
        ensures { (codec : Codec) → ReadsItems codec → IsStep
            (step_after outputs.old (du_steps codec self.old (ins.Packet teid octets.now))) outputs.new self.new result }
    {
        self.contexts.take(alloc, teid, octets, outputs)
    }

    /// A PDU that the radio carried up goes on, on the bearer's uplink tunnel.
    pub fn pass_up(
        &self,
        alloc: Global,
        key: RadioKey,
        octets: &[u8],
        outputs: &mut Outputs,
    ) -> Result<(), StepError>
        ensures { (codec : Codec) → ReadsPdus codec → IsStep
            (step_after outputs.old (du_steps codec self.now (ins.Radio key.ue key.bearer Ul octets.now))) outputs.new self.now result }
    {
        self.contexts.radio_came(alloc, key, octets, outputs)
    }

    /// A PDU that the radio carried down is confirmed: a delivery status tells the number of a packet.
    pub fn confirm(
        &self,
        alloc: Global,
        key: RadioKey,
        octets: &[u8],
        outputs: &mut Outputs,
    ) -> Result<(), StepError>
        ensures { (codec : Codec) → ReadsPdus codec → IsStep
            (step_after outputs.old (du_steps codec self.now (ins.Confirm key.ue key.bearer Dl octets.now))) outputs.new self.now result }
    {
        self.contexts.confirm_came(alloc, key, octets, outputs)
    }
}
