//! Which input goes to which row.

ghost use Rattle.gnb_types.specs.declared.inputs.Input.TheVariants as ins;
ghost use Rattle.unit_defs.specs.octet_defs.Codec.{octet_way};
ghost use Rattle.unit_defs.specs.octet_defs.Units.{du_steps};
ghost use Rattle.unit_defs.specs.codec_defs.Reading.{ReadsItems, ReadsPdus};
ghost use Rattle.unit_messages.specs.steps.Steps.{IsStep, step_after};

use crate::rows::record::DuRecord;
use du_contexts::packets::RadioKey;
use gnb_types::inputs::{Input, Order};
use gnb_types::names::Dir;
use gnb_types::outputs::{Output, Outputs};
use gnb_types::reasons::DropReason;
use std::alloc::Global;
use unit_messages::MessageCodec;
use unit_messages::steps::StepError;
use unit_requests::put;

impl DuRecord {
    /// One step: what the DU does with its input. What it can't read it drops, and its record is as before.
    #[tactic(auto, unfolding(unit_defs::specs::octet_defs::Units::du_steps, unit_defs::specs::octet_defs::Reading::read_at_du, unit_defs::specs::Du::du_acts))]
    pub fn act<C: MessageCodec>(
        &mut self,
        alloc: Global,
        codec: &C,
        input: &Input,
        outputs: &mut Outputs,
    ) -> Result<(), StepError>
        ensures { ReadsItems C.codec → ReadsPdus C.codec → IsStep
            (step_after outputs.old (du_steps C.codec self.old input.now)) outputs.new self.new result }
    {
        match input {
            Input::Control { from, bytes } => self.control_received(
                alloc,
                codec,
                *from,
                bytes.as_slice(),
                outputs,
            ),
            Input::Packet { teid, bytes } => self.take(alloc, *teid, bytes.as_slice(), outputs),
            Input::Radio {
                ue,
                bearer,
                dir: Dir::Ul,
                bytes,
            } => {
                let key = RadioKey {
                    ue: *ue,
                    bearer: *bearer,
                };
                self.pass_up(alloc, key, bytes.as_slice(), outputs)
            }
            Input::Confirm {
                ue,
                bearer,
                dir: Dir::Dl,
                bytes,
            } => {
                let key = RadioKey {
                    ue: *ue,
                    bearer: *bearer,
                };
                self.confirm(alloc, key, bytes.as_slice(), outputs)
            }
            Input::Tick => self.tick(alloc, outputs),
            Input::Order(Order::Start) => self.start(alloc, codec, outputs),
            Input::Radio { .. } | Input::Confirm { .. } | Input::Offer { .. } | Input::Order(_) => {
                put(outputs, Output::Drop(DropReason::Unexpected))
            }
        }
    }
}
