//! The unit.

ghost use Rattle.std.specs.Prelude.{◌≡◌, None, IfOk};
ghost use Rattle.unit_defs.specs.CuCpRecords.{new_cu_cp};
ghost use Rattle.unit_defs.specs.Static.{cu_cp_set_up};
ghost use Rattle.unit_defs.specs.Accessors.{state_of, taken_epoch, place_of, is_set_up, cu_cp_rests};
ghost use Rattle.unit_defs.specs.octet_defs.Units.{cu_cp_steps};
ghost use Rattle.unit_messages.specs.steps.Steps.{step_after, IsStep};
ghost use Rattle.cu_control.specs.Units.{StepsTo, PlacesTo};

use crate::messages::octets_came;
use crate::orders::ordered;
use crate::ticks::tick;
use cu_cp_records::control_records::ControlRecord;
use gnb_types::inputs::Input;
use gnb_types::items::{Items, Memory};
use gnb_types::names::{Gnb, NodeId, UeId};
use gnb_types::outputs::{Output, Outputs};
use gnb_types::plans::Plan;
use gnb_types::reasons::DropReason;
use std::alloc::Global;
use std::marker::Model;
use unit_defs::StateName;
use unit_messages::MessageCodec;
use unit_messages::steps::StepError;
use unit_requests::put;

/// The CU-CP of a gNB. Once memory ran out, or a counter was spent, it answers the same from then on.
#[derive(Drop)]
pub struct CuControl {
    alloc: Global,
    record: ControlRecord,
    stopped: Option<StepError>,
}

impl Model for CuControl {
    ghost use Rattle.cu_control.specs.Units.{ControlUnit};

    ghost Value = { ControlUnit };

    ghost view = { λ c. record { kept = c.record; stopped = c.stopped } };
}

impl CuControl {
    /// The CU-CP of this gNB, with no unit set up and no terminal.
    pub fn new(alloc: Global, gnb: Gnb) -> Result<CuControl, Memory>
        ensures { IfOk result (λ c. c ≡ record { kept = new_cu_cp gnb; stopped = None }) }
    {
        let record = ControlRecord::new(alloc, gnb)?;
        Ok(CuControl {
            alloc,
            record,
            stopped: None,
        })
    }

    /// One step: what the unit does on an input. Octets that are no message it drops, and keeps all as it is.
    pub fn step<C: MessageCodec>(&mut self, codec: &C, input: Input) -> Result<Outputs, StepError>
        ensures { StepsTo C.codec self.old input self.new result }
    {
        if let Some(error) = self.stopped {
            return Err(error);
        }
        let mut outputs = Items::new(self.alloc);
        match take(&mut self.record, self.alloc, codec, input, &mut outputs) {
            Ok(()) => Ok(outputs),
            Err(error) => {
                self.stopped = Some(error);
                Err(error)
            }
        }
    }

    /// A terminal is served here as if an attach had run.
    pub fn place_static(&mut self, plan: Plan) -> Result<(), StepError>
        ensures { PlacesTo self.old plan self.new result }
    {
        if let Some(error) = self.stopped {
            return Err(error);
        }
        match self.record.place_static(plan) {
            Ok(()) => Ok(()),
            Err(_) => {
                self.stopped = Some(StepError::Memory);
                Err(StepError::Memory)
            }
        }
    }

    /// All units of the gNB count as set up. It takes no memory.
    pub fn mark_set_up(&mut self)
        ensures { self.new ≡ record self.old { kept = cu_cp_set_up self.old.kept } }
    {
        self.record.mark_set_up();
    }

    // ---- what a run looks at

    /// The state of a terminal; `Idle` where it has no context.
    pub fn state(&self, ue: UeId) -> StateName
        ensures { result ≡ state_of self.now.kept ue }
    {
        self.record.state(ue)
    }

    /// The greatest epoch of a complete or re-establish that was taken.
    pub fn taken(&self, ue: UeId) -> Option<u32>
        ensures { result ≡ taken_epoch self.now.kept ue }
    {
        self.record.taken(ue)
    }

    /// The numbers of the CU-UP and the DU of a terminal's context.
    pub fn place(&self, ue: UeId) -> Option<(u8, u8)>
        ensures { result ≡ place_of self.now.kept ue }
    {
        self.record.place(ue)
    }

    /// Whether a unit is set up.
    pub fn is_set_up(&self, unit: NodeId) -> bool
        ensures { result ≡ is_set_up self.now.kept unit }
    {
        self.record.is_set_up(unit)
    }

    /// Whether no request of a terminal is open or waits.
    pub fn rests(&self, ue: UeId) -> bool
        ensures { result ≡ cu_cp_rests self.now.kept ue }
    {
        self.record.rests(ue)
    }
}

/// An input: a control message, a tick or an order. No other input is one of a CU-CP.
#[tactic(auto, unfolding(unit_defs::specs::octet_defs::Units::cu_cp_steps, unit_defs::specs::octet_defs::Reading::read_at_cu_cp, unit_defs::specs::CuCp::cu_cp_acts))]
fn take<C: MessageCodec>(
    record: &mut ControlRecord,
    alloc: Global,
    codec: &C,
    input: Input,
    outputs: &mut Outputs,
) -> Result<(), StepError>
    ensures { IsStep (step_after outputs.old (cu_cp_steps C.codec record.old input)) outputs.new
        record.new result }
{
    match input {
        Input::Control { from, bytes } => octets_came(record, alloc, codec, from, &bytes, outputs),
        Input::Tick => tick(record, alloc, codec, outputs),
        Input::Order(order) => ordered(record, alloc, codec, order, outputs),
        Input::Packet { .. } | Input::Radio { .. } | Input::Confirm { .. } | Input::Offer { .. } =>
            { put(outputs, Output::Drop(DropReason::Unexpected)) }
    }
}
