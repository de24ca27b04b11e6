//! An attempt: an attach, a handover, an offer of one, or a return.

ghost use Rattle.std.specs.Prelude.{◌≡◌, IfOk};
ghost use Rattle.unit_defs.specs.CuCpRecords.{is_from, with_instance_of, awaiting, begun, answered, is_instance, awaits_answer};
ghost use Rattle.unit_defs.specs.CuCpRows.{new_attempt};

use crate::control_contexts::nodes::{copy_tunnels, same_node};
use gnb_types::items::{Items, Memory};
use gnb_types::names::NodeId;
use gnb_types::plans::TunnelList;
use std::alloc::Global;
use std::marker::Model;
use unit_defs::AttemptKind;

/// An answer that an attempt awaits: from whom, and of which instance, once its request was put.
#[derive(Clone, Copy)]
pub struct Awaited {
    pub from: NodeId,
    pub instance: Option<u32>,
}

impl Model for Awaited {
    ghost use Rattle.unit_defs.specs.CuCpRecords.{Awaited};

    ghost Value = { Awaited };

    ghost view = { λ a. record { from = a.from; instance = a.instance } };

    ghost inverse = { λ a. record { from = a.from; instance = a.instance } };
}

impl Awaited {
    fn is_from(&self, node: NodeId) -> bool
        ensures { result ≡ is_from node self.now }
    {
        same_node(self.from, node)
    }

    /// Whether the answer with this instance is awaited: before its request was put none is.
    fn is_instance(&self, instance: u32) -> bool
        ensures { result ≡ is_instance self.now.instance instance }
    {
        match self.instance {
            Some(awaited) => awaited == instance,
            None => false,
        }
    }

    /// The request to this node got this instance.
    fn with_instance_of(self, node: NodeId, instance: u32) -> Awaited
        ensures { result ≡ with_instance_of node instance self }
    {
        if self.is_from(node) {
            return Awaited {
                from: self.from,
                instance: Some(instance),
            };
        }
        self
    }
}

/// Where a terminal is to go, with which epoch, and what is known of the tunnels there so far.
#[derive(Drop)]
pub struct Attempt {
    pub kind: AttemptKind,
    /// The epoch that the terminal has once this is over. Where the one before was the last one there is no such epoch.
    pub epoch: u64,
    pub up: u8,
    pub du: u8,
    pub n3: TunnelList,
    pub downlinks: TunnelList,
    pub forward_down: TunnelList,
    pub forward_up: TunnelList,
    /// Of an offer: the instance of its request.
    pub instance: u32,
    /// Of an offer: the DU was asked.
    pub du_begun: bool,
    /// The bearers were switched.
    pub switched: bool,
    /// The path switch isn't answered.
    pub path_open: bool,
    pub awaits: Items<Awaited>,
}

impl Model for Attempt {
    ghost use Rattle.unit_defs.specs.CuCpRecords.{Attempt};

    ghost Value = { Attempt };

    ghost view = { λ a. record {
      kind = a.kind;
      epoch = a.epoch;
      up = a.up;
      du = a.du;
      n3 = a.n3;
      downlinks = a.downlinks;
      forward_down = a.forward_down;
      forward_up = a.forward_up;
      instance = a.instance;
      du_begun = a.du_begun;
      switched = a.switched;
      path_open = a.path_open;
      awaits = a.awaits;
    } };
}

impl Attempt {
    /// A new attempt, of which nothing is known yet.
    pub fn new(alloc: Global, kind: AttemptKind, epoch: u64, up: u8, du: u8) -> Attempt
        ensures { result ≡ new_attempt kind epoch up du }
    {
        Attempt {
            kind,
            epoch,
            up,
            du,
            n3: TunnelList::new(alloc),
            downlinks: TunnelList::new(alloc),
            forward_down: TunnelList::new(alloc),
            forward_up: TunnelList::new(alloc),
            instance: 0,
            du_begun: false,
            switched: false,
            path_open: false,
            awaits: Items::new(alloc),
        }
    }

    pub fn copy(&self, alloc: Global) -> Result<Attempt, Memory>
        ensures { IfOk result (λ a. a ≡ self.now) }
    {
        let n3 = copy_tunnels(alloc, &self.n3)?;
        let downlinks = copy_tunnels(alloc, &self.downlinks)?;
        let forward_down = copy_tunnels(alloc, &self.forward_down)?;
        let forward_up = copy_tunnels(alloc, &self.forward_up)?;
        let awaits = Items::from_slice(alloc, self.awaits.as_slice())?;
        Ok(Attempt {
            kind: self.kind,
            epoch: self.epoch,
            up: self.up,
            du: self.du,
            n3,
            downlinks,
            forward_down,
            forward_up,
            instance: self.instance,
            du_begun: self.du_begun,
            switched: self.switched,
            path_open: self.path_open,
            awaits,
        })
    }

    /// The answer to a request to this node is awaited, which has no instance yet.
    pub fn awaiting(mut self, node: NodeId) -> Result<Attempt, Memory>
        ensures { IfOk result (λ a. a ≡ awaiting self node) }
    {
        self.awaits.push(Awaited {
            from: node,
            instance: None,
        })?;
        Ok(self)
    }

    /// The request to this node got this instance.
    pub fn begun(mut self, alloc: Global, node: NodeId, instance: u32) -> Result<Attempt, Memory>
        ensures { IfOk result (λ a. a ≡ begun self node instance) }
    {
        let awaits = self
            .awaits
            .as_slice()
            .iter()
            .copied()
            .map(|a| a.with_instance_of(node, instance))
            .collect(alloc)?;
        self.awaits = Items::from_vec(awaits);
        Ok(self)
    }

    /// No answer of this node is awaited any more.
    pub fn answered(mut self, alloc: Global, node: NodeId) -> Result<Attempt, Memory>
        ensures { IfOk result (λ a. a ≡ answered self node) }
    {
        let awaits = self
            .awaits
            .as_slice()
            .iter()
            .copied()
            .filter(|a| !a.is_from(node))
            .collect(alloc)?;
        self.awaits = Items::from_vec(awaits);
        Ok(self)
    }

    /// Whether an answer of this node with this instance is awaited.
    pub fn awaits_answer(&self, from: NodeId, instance: u32) -> bool
        ensures { result ≡ awaits_answer self.now from instance }
    {
        self.awaits
            .as_slice()
            .iter()
            .any(|a| a.is_from(from) && a.is_instance(instance))
    }
}
