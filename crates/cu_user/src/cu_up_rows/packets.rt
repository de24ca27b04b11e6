//! Items of tunnels, and polls (TS 38.425, 5.4; TS 38.323, 5.2).

ghost use Rattle.gnb_types.specs.declared.inputs.Input.TheVariants as ins;
ghost use Rattle.unit_defs.specs.codec_defs.Reading.{ReadsItems};
ghost use Rattle.unit_defs.specs.CuUp.{poll};
ghost use Rattle.unit_defs.specs.octet_defs.Codec.{Codec, octet_way};
ghost use Rattle.unit_defs.specs.octet_defs.Units.{cu_up_steps};
ghost use Rattle.unit_messages.specs.steps.Steps.{IsStep, step_after};

use crate::cu_up_rows::record::CuUpRecord;
use gnb_types::names::{BearerId, UeId};
use gnb_types::outputs::Outputs;
use std::alloc::Global;
use unit_messages::steps::StepError;

impl CuUpRecord {
    /// An item of a tunnel: it is dropped, held at the head of its tunnel, or taken by its bearer.
    pub fn take(
        &mut self,
        alloc: Global,
        teid: u32,
        octets: &[u8],
        outputs: &mut Outputs,
    ) -> Result<(), StepError>
        ensures { (codec : Codec) → ReadsItems codec → IsStep
            (step_after outputs.old (cu_up_steps codec self.old (ins.Packet teid octets.now))) outputs.new self.new result }
    {
        self.contexts.take(alloc, teid, octets, outputs)
    }

    /// A poll of a bearer's DU: refused where nothing is unconfirmed, and where no downlink is served.
    pub fn poll(
        &mut self,
        alloc: Global,
        ue: UeId,
        bearer: BearerId,
        outputs: &mut Outputs,
    ) -> Result<(), StepError>
        ensures { (codec : Codec) → IsStep
            (step_after outputs.old (poll (octet_way codec) ue bearer self.old)) outputs.new self.new result }
    {
        self.contexts.poll(alloc, ue, bearer, outputs)
    }
}
