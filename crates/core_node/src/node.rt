//! What the core keeps.

ghost use Rattle.std.specs.Prelude.{◌≡◌, ◌++◌, OnOk, OnErr, option_copied};
ghost use Rattle.gnb_types.specs.Orders.{ue_cmp};
ghost use Rattle.tables.specs.Tables.{find, put};
ghost use Rattle.unit_defs.specs.Core.{new_core, old_ends, moved};
ghost use Rattle.unit_defs.specs.octet_defs.Codec.{Codec, octet_way};
ghost use Rattle.unit_defs.specs.octet_defs.Writing.{outputs_of};
ghost use Rattle.unit_messages.specs.steps.Steps.{IsStep, step_after};

use crate::paths::CorePath;
use gnb_types::items::Memory;
use gnb_types::names::{NodeId, UeId};
use gnb_types::outputs::Outputs;
use gnb_types::plans::{Peer, TunnelList};
use std::alloc::Global;
use std::marker::Model;
use tables::table::Table;
use unit_messages::steps::StepError;
use unit_requests::Requests;

/// The path of each terminal, and the replies that are kept. Contracts see the record of the table of rows.
#[derive(Drop)]
pub struct CoreNode {
    pub(crate) paths: Table<UeId, CorePath>,
    pub(crate) requests: Requests,
}

impl Model for CoreNode {
    ghost use Rattle.core_node.specs.Cores.{OctetCore};

    ghost Value = { OctetCore };

    ghost view = { λ c. record { paths = c.paths; transactions = c.requests } };
}

impl CoreNode {
    /// It knows no terminal.
    pub fn new(alloc: Global) -> CoreNode
        ensures { result ≡ new_core }
    {
        CoreNode {
            paths: Table::new(alloc),
            requests: Requests::new(alloc),
        }
    }

    /// Where the downlink of a terminal goes; None where it was never set up.
    pub fn path(&self, ue: UeId) -> Option<&CorePath>
        ensures { option_copied result ≡ find ue_cmp self.now.paths ue }
    {
        self.paths.get(&ue)
    }

    /// The downlink of a terminal goes there. Out of memory nothing changes.
    pub fn set_path(&mut self, ue: UeId, path: CorePath) -> Result<(), Memory>
        ensures ok { OnOk result (self.new ≡ record self.old { paths = put ue_cmp self.old.paths ue path }) }
        ensures err { OnErr result (self.new ≡ self.old) }
    {
        self.paths.put(ue, path)?;
        Ok(())
    }

    /// An End Marker goes on each tunnel of the path that the terminal has, if any.
    fn end_path(&self, alloc: Global, ue: UeId, outputs: &mut Outputs) -> Result<(), Memory>
        ensures { (codec : Codec) → OnOk result (outputs.new
            ≡ outputs.old ++ outputs_of (old_ends (octet_way codec) ue (find ue_cmp self.now.paths ue))) }
    {
        match self.path(ue) {
            Some(path) => path.end(alloc, ue, outputs),
            None => Ok(()),
        }
    }

    /// The downlink of a terminal goes to this CU-UP from here on; an End Marker ends each old tunnel.
    pub(crate) fn move_path(
        &mut self,
        alloc: Global,
        ue: UeId,
        peer: Peer,
        n3: TunnelList,
        outputs: &mut Outputs,
    ) -> Result<(), StepError>
        ensures { (codec : Codec) → IsStep
            (step_after outputs.old (moved (octet_way codec) ue peer n3 self.old)) outputs.new self.new result }
    {
        self.end_path(alloc, ue, outputs)?;
        let path = CorePath {
            up: NodeId::CuUp(peer.gnb, peer.up),
            n3,
        };
        self.set_path(ue, path)?;
        Ok(())
    }
}
