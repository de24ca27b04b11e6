//! Which input goes to which row.

ghost use Rattle.unit_defs.specs.codec_defs.Reading.{ReadsItems};
ghost use Rattle.unit_defs.specs.codec_range_defs.Ranges.{ReadsInRange};
ghost use Rattle.unit_defs.specs.CuUp.{ordered};
ghost use Rattle.unit_defs.specs.octet_defs.Codec.{octet_way};
ghost use Rattle.unit_defs.specs.octet_defs.Units.{cu_up_steps};
ghost use Rattle.unit_messages.specs.steps.Steps.{IsStep, step_after};

use crate::cu_up_rows::record::CuUpRecord;
use gnb_types::inputs::{Input, Order};
use gnb_types::outputs::{Output, Outputs};
use gnb_types::reasons::DropReason;
use std::alloc::Global;
use unit_messages::MessageCodec;
use unit_messages::steps::StepError;
use unit_requests::put;

impl CuUpRecord {
    /// An order: E1 Setup, or a poll.
    fn ordered<C: MessageCodec>(
        &mut self,
        alloc: Global,
        codec: &C,
        order: Order,
        outputs: &mut Outputs,
    ) -> Result<(), StepError>
        ensures { IsStep (step_after outputs.old (ordered (octet_way C.codec) order self.old)) outputs.new self.new result }
    {
        match order {
            Order::Start => self.start(alloc, codec, outputs),
            Order::Poll(ue, bearer) => self.poll(alloc, ue, bearer, outputs),
            _ => put(outputs, Output::Drop(DropReason::Unexpected)),
        }
    }

    /// One step: what the CU-UP does with its input. What it can't read it drops, and its record is as before.
    #[tactic(auto, unfolding(unit_defs::specs::octet_defs::Units::cu_up_steps, unit_defs::specs::octet_defs::Reading::read_at_cu_up, unit_defs::specs::CuUp::cu_up_acts))]
    pub fn act<C: MessageCodec>(
        &mut self,
        alloc: Global,
        codec: &C,
        input: &Input,
        outputs: &mut Outputs,
    ) -> Result<(), StepError>
        requires { ReadsInRange C.codec }
        ensures { ReadsItems C.codec → IsStep
            (step_after outputs.old (cu_up_steps C.codec self.old input.now)) outputs.new self.new result }
    {
        match input {
            Input::Control { from, bytes } => self.control_received(
                alloc,
                codec,
                *from,
                bytes.as_slice(),
                outputs,
            ),
            Input::Packet { teid, bytes } => self.take(alloc, *teid, bytes.as_slice(), outputs),
            Input::Tick => self.tick(alloc, outputs),
            Input::Order(order) => self.ordered(alloc, codec, *order, outputs),
            Input::Radio { .. } | Input::Confirm { .. } | Input::Offer { .. } => {
                put(outputs, Output::Drop(DropReason::Unexpected))
            }
        }
    }
}
