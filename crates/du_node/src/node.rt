//! A DU, and its steps.

ghost use Rattle.std.specs.Prelude.{◌≡◌, [], Some, None, Err, IfSome};
ghost use Rattle.gnb_types.specs.Orders.{ue_cmp};
ghost use Rattle.tables.specs.Tables.{find};
ghost use Rattle.unit_defs.specs.Accessors.{du_epoch};
ghost use Rattle.unit_defs.specs.Static.{du_set_up};
ghost use Rattle.unit_defs.specs.codec_defs.Reading.{ReadsItems, ReadsPdus};
ghost use Rattle.unit_defs.specs.octet_defs.Codec.{Codec};
ghost use Rattle.unit_defs.specs.octet_defs.Reading.{du_link};
ghost use Rattle.du_contexts.specs.Tables.{is_item};
ghost use Rattle.unit_defs.specs.octet_defs.Units.{du_steps};
ghost use Rattle.unit_messages.specs.steps.Steps.{IsStep, step_after};
ghost use Rattle.du_contexts.specs.Placing.{IsPlaced};
ghost use Rattle.du_node.specs.Nodes.{new_node, outputs_in, failure_in};

use crate::rows::DuRecord;
use gnb_types::inputs::Input;
use gnb_types::names::{Gnb, UeId};
use gnb_types::outputs::Outputs;
use gnb_types::plans::Plan;
use std::alloc::Global;
use std::marker::Model;
use unit_messages::MessageCodec;
use unit_messages::steps::StepError;

/// A DU. Contracts see its record of the table of rows, and why it is of no use, if a step could not be made.
#[derive(Drop)]
pub struct DuNode {
    record: DuRecord,
    failure: Option<StepError>,
}

impl Model for DuNode {
    ghost use Rattle.du_node.specs.Nodes.{Node};

    ghost Value = { Node };

    ghost view = { λ n. record { du = n.record; failure = n.failure } };
}

impl DuNode {
    /// The DU `number` of a gNB: it is not set up, and serves no terminal.
    pub fn new(alloc: Global, gnb: Gnb, number: u8) -> DuNode
        ensures { result ≡ new_node gnb number }
    {
        DuNode {
            record: DuRecord::new(alloc, gnb, number),
            failure: None,
        }
    }

    /// It is of no use from here on.
    fn failed(&mut self, error: StepError) -> StepError
        ensures kept { self.new ≡ record self.old { failure = Some error } }
        ensures same { result ≡ error }
    {
        self.failure = Some(error);
        error
    }

    /// One step: the outputs that the rows give for this input, in order. After an error each further step gives that error again.
    pub fn step<C: MessageCodec>(
        &mut self,
        alloc: Global,
        codec: &C,
        input: &Input,
    ) -> Result<Outputs, StepError>
        ensures steps { ReadsItems C.codec → ReadsPdus C.codec → self.old.failure ≡ None → IsStep
            (step_after [] (du_steps C.codec self.old.du input.now)) (outputs_in result) self.new.du result }
        ensures kept { self.old.failure ≡ None → self.new.failure ≡ failure_in result }
        ensures failed { IfSome self.old.failure (λ error. (result ≡ Err error) × (self.new ≡ self.old)) }
    {
        if let Some(error) = self.failure {
            return Err(error);
        }
        let mut outputs = Outputs::new(alloc);
        match self.record.act(alloc, codec, input, &mut outputs) {
            Ok(()) => Ok(outputs),
            Err(error) => Err(self.failed(error)),
        }
    }

    /// A terminal without a context gets the one of this plan, as if it had been attached. Its uplinks go to every second TEID of the
    /// CU-UP from `uplink` on. After an error each further step gives that error again.
    pub fn place_static(&mut self, alloc: Global, plan: Plan, uplink: u32) -> Result<(), StepError>
        requires { find ue_cmp self.old.du.contexts plan.ue ≡ None }
        ensures placed { self.old.failure ≡ None → IsPlaced self.old.du plan uplink self.new.du result }
        ensures kept { self.old.failure ≡ None → self.new.failure ≡ failure_in result }
        ensures failed { IfSome self.old.failure (λ error. (result ≡ Err error) × (self.new ≡ self.old)) }
    {
        if let Some(error) = self.failure {
            return Err(error);
        }
        match self.record.place_static(alloc, plan, uplink) {
            Ok(()) => Ok(()),
            Err(error) => Err(self.failed(error)),
        }
    }

    /// It counts as set up.
    pub fn mark_set_up(&mut self)
        ensures { self.new ≡ record self.old { du = du_set_up self.old.du } }
    {
        self.record.mark_set_up();
    }

    /// The TEID that is given next, 0 where the last one was given.
    pub fn next_teid(&self) -> u32
        ensures { result ≡ self.now.du.next_teid }
    {
        self.record.next_teid()
    }

    /// The epoch of the context of this terminal, None where there is none.
    pub fn epoch(&self, ue: UeId) -> Option<u32>
        ensures { result ≡ du_epoch self.now.du ue }
    {
        self.record.epoch(ue)
    }

    /// Whether octets decode as an item of this tunnel.
    pub fn decodes(&self, teid: u32, octets: &[u8]) -> bool
        ensures { (codec : Codec) → ReadsItems codec → result ≡ is_item codec octets.now (du_link self.now.du teid) }
    {
        self.record.decodes(teid, octets)
    }
}
