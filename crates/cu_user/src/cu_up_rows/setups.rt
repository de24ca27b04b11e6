//! E1 Setup (TS 37.483, 8.2.3), and ticks.

ghost use Rattle.unit_defs.specs.CuUp.{start, set_up, tick};
ghost use Rattle.unit_defs.specs.octet_defs.Codec.{Codec, octet_way};
ghost use Rattle.unit_messages.specs.steps.Steps.{IsStep, step_after};

use crate::cu_up_rows::record::CuUpRecord;
use gnb_types::keys::Channel;
use gnb_types::names::NodeId;
use gnb_types::outputs::Outputs;
use message_types::E1Message;
use std::alloc::Global;
use unit_messages::steps::StepError;
use unit_messages::{Message, MessageCodec};
use unit_requests::Waiting;
use unit_requests::setup_requests::{node_name, put_due};

impl CuUpRecord {
    /// E1 Setup is begun, unless the CU-UP is set up.
    #[tactic(auto, unfolding(unit_defs::specs::CuUp::start))]
    pub fn start<C: MessageCodec>(
        &mut self,
        alloc: Global,
        codec: &C,
        outputs: &mut Outputs,
    ) -> Result<(), StepError>
        ensures { IsStep (step_after outputs.old (start (octet_way C.codec) self.old)) outputs.new self.new result }
    {
        if self.is_set_up {
            return Ok(());
        }
        let name = node_name(alloc, self.node())?;
        let channel = Channel {
            ue: 0,
            peer: NodeId::CuCp(self.gnb),
        };
        let waiting = Waiting {
            message: Message::E1(E1Message::E1SetupRequest { instance: 0, name }),
            deadline: None,
            awaited: false,
        };
        self.requests.ask(alloc, codec, channel, waiting, outputs)?;
        Ok(())
    }

    /// The awaited reply came on this channel: its request is closed, the CU-UP is set up, and what waits there is put.
    #[tactic(auto, unfolding(unit_defs::specs::CuUp::set_up))]
    pub fn set_up<C: MessageCodec>(
        &mut self,
        alloc: Global,
        codec: &C,
        channel: Channel,
        outputs: &mut Outputs,
    ) -> Result<(), StepError>
        ensures { IsStep (step_after outputs.old (set_up (octet_way C.codec) channel self.old)) outputs.new self.new result }
    {
        self.requests.close(&channel);
        self.is_set_up = true;
        self.requests.advance(alloc, codec, channel, outputs)?;
        Ok(())
    }

    /// A tick: open requests are put again.
    #[tactic(auto, unfolding(unit_defs::specs::CuUp::tick))]
    pub fn tick(&mut self, alloc: Global, outputs: &mut Outputs) -> Result<(), StepError>
        ensures { (codec : Codec) → IsStep (step_after outputs.old (tick (octet_way codec) self.old)) outputs.new self.new result }
    {
        let due = self.requests.tick(alloc)?;
        put_due(due.as_slice(), outputs)?;
        Ok(())
    }
}
