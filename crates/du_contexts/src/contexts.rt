//! The contexts of terminals, and the tunnels of their bearers.

ghost use Rattle.std.specs.Prelude.{◌≡◌};
ghost use Rattle.unit_defs.specs.Accessors.{du_epoch};
ghost use Rattle.du_contexts.specs.Tables.{OctetDu, with_tables, no_tables};

use crate::bearers::{DuContext, DuTunnel};
use gnb_types::names::UeId;
use std::alloc::Global;
use std::marker::Model;
use tables::table::Table;

/// The contexts of terminals, the open downlink tunnels by TEID, and the TEID that is given next.
#[derive(Drop)]
pub struct DuContexts {
    /// 0 where all were given.
    pub(crate) next_teid: u32,
    pub(crate) tunnels: Table<u32, DuTunnel>,
    pub(crate) contexts: Table<UeId, DuContext>,
}

impl Model for DuContexts {
    ghost use Rattle.du_contexts.specs.Tables.{DuTables};

    ghost Value = { DuTables };

    ghost view = { λ c. record { next_teid = c.next_teid; tunnels = c.tunnels; contexts = c.contexts } };
}

impl DuContexts {
    /// No terminal is served.
    pub fn new(alloc: Global) -> DuContexts
        ensures { result ≡ no_tables }
    {
        DuContexts {
            next_teid: 1,
            tunnels: Table::new(alloc),
            contexts: Table::new(alloc),
        }
    }

    /// The TEID that is given next, 0 where the last one was given.
    pub fn next_teid(&self) -> u32
        ensures { result ≡ self.now.next_teid }
    {
        self.next_teid
    }

    /// The epoch of the context of this terminal, None where there is none.
    pub fn epoch(&self, ue: UeId) -> Option<u32>
        ensures { (r : OctetDu) → result ≡ du_epoch (with_tables r self.now) ue }
    {
        match self.contexts.get(&ue) {
            Some(context) => Some(context.epoch),
            None => None,
        }
    }
}
