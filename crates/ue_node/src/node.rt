//! A terminal, which makes no step any more after one that failed.

ghost use Rattle.std.specs.Prelude.{◌≡◌, ◌≤◌, IfOk};
ghost use Rattle.unit_defs.specs.codec_defs.Reading.{ReadsPdus};
ghost use Rattle.unit_defs.specs.Accessors.{ue_rests};
ghost use Rattle.ue_node.specs.Nodes.{HasPacket, new_node, IsNodeStep, IsPlaced, failure_of};

use crate::inputs::act;
use crate::rows::UeRecord;
use gnb_types::inputs::Input;
use gnb_types::items::Memory;
use gnb_types::names::{BearerId, NodeId, UeId};
use gnb_types::outputs::Outputs;
use gnb_types::plans::Plan;
use std::alloc::Global;
use std::marker::Model;
use unit_defs::UeState;
use unit_messages::MessageCodec;
use unit_messages::steps::StepError;

/// A terminal. Contracts see the record of the procedure tables, and the error with which a step failed.
#[derive(Drop)]
pub struct UeNode {
    record: UeRecord,
    failure: Option<StepError>,
}

impl Model for UeNode {
    ghost use Rattle.ue_node.specs.Nodes.{NodeState};

    ghost Value = { NodeState };

    ghost use Rattle.ue_node.specs.rows.Records.{record_of};
    ghost use Rattle.ue_node.specs.inside.Invariants.{IsSoundUnlessFailed};

    ghost view = { λ n. record { node = record_of n.record; failure = n.failure } };

    ghost invariant = { λ n. IsSoundUnlessFailed n.failure n.record };
}

impl UeNode {
    /// A terminal that is idle. It takes the blocks for the packets of its bearers: twice its quota for each.
    pub fn new(alloc: Global, plan: Plan) -> Result<UeNode, Memory>
        requires least { 4 ≤ plan.quota }
        requires most { plan.quota ≤ 4096 }
        ensures { IfOk result (λ u. u ≡ new_node plan) }
    {
        let record = UeRecord::new(alloc, plan)?;
        Ok(UeNode {
            record,
            failure: None,
        })
    }

    /// Takes an input, and gives what it puts out, in order.
    ///
    /// # Errors
    /// `Spent` where a counter would pass its last value; `Memory`. From then on it answers the same error.
    pub fn step<C: MessageCodec>(
        &mut self,
        alloc: Global,
        codec: &C,
        input: Input,
    ) -> Result<Outputs, StepError>
        requires { HasPacket input }
        ensures step { ReadsPdus C.codec → IsNodeStep C.codec self.old input self.new result }
        ensures failure { self.new.failure ≡ failure_of result }
    {
        if let Some(error) = self.failure {
            return Err(error);
        }
        let mut out = Outputs::new(alloc);
        match act(&mut self.record, alloc, codec, input, &mut out) {
            Ok(()) => Ok(out),
            Err(error) => {
                self.failure = Some(error);
                Err(error)
            }
        }
    }

    /// It is connected in epoch 1, as if an attach had run. This takes no memory.
    ///
    /// # Errors
    /// That of a step that failed before.
    pub fn place_static(&mut self) -> Result<(), StepError>
        ensures { IsPlaced self.old self.new result }
    {
        if let Some(error) = self.failure {
            return Err(error);
        }
        self.record.place_static();
        Ok(())
    }

    /// Its name.
    pub fn ue(&self) -> UeId
        ensures { result ≡ self.now.node.plan.ue }
    {
        self.record.plan.ue
    }

    /// Where it stands.
    pub fn state(&self) -> UeState
        ensures { result ≡ self.now.node.state }
    {
        self.record.state
    }

    pub fn epoch(&self) -> u32
        ensures { result ≡ self.now.node.epoch }
    {
        self.record.epoch
    }

    /// The DU of its last connection, None before the first one.
    pub fn home(&self) -> Option<NodeId>
        ensures { result ≡ self.now.node.home }
    {
        self.record.home
    }

    /// Whether nothing of this bearer is unconfirmed or waits.
    pub fn rests(&self, bearer: BearerId) -> bool
        ensures { result ≡ ue_rests self.now.node bearer }
    {
        self.record.rests(bearer)
    }
}
