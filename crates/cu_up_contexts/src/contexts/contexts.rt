//! The contexts of terminals, and the tunnels of their bearers.

ghost use Rattle.std.specs.Prelude.{◌≡◌, ◌*◌, ◌<◌, ◌^◌, option_copied};
ghost use Rattle.gnb_types.specs.Orders.{ue_cmp};
ghost use Rattle.tables.specs.Tables.{find};
ghost use Rattle.unit_defs.specs.Accessors.{cu_up_has_context, is_unconfirmed, cu_up_rests};
ghost use Rattle.unit_defs.specs.CuUp.{fits};
ghost use Rattle.unit_defs.specs.octet_defs.Codec.{Codec, octet_way};
ghost use Rattle.cu_up_contexts.specs.contexts.Tables.{OctetUp, with_tables, no_tables};

use crate::bearer_context::Context;
use cu_up_items::items::Kind;
use gnb_types::names::{BearerId, UeId};
use std::alloc::Global;
use std::marker::Model;
use tables::table::Table;

/// How many blocks there are in all.
const POOL_BLOCKS: u64 = 8_192;

/// Whose a tunnel is that ends at the CU-UP: the terminal and bearer, its kind, and the instance of the context.
#[derive(Drop)]
pub(crate) struct CuUpTunnel {
    pub(crate) ue: UeId,
    pub(crate) bearer: BearerId,
    pub(crate) kind: Kind,
    pub(crate) context: u32,
}

impl Model for CuUpTunnel {
    ghost use Rattle.unit_defs.specs.CuUpRecords.{CuUpTunnel};
    ghost use Rattle.cu_up_items.specs.items.Items.{kind_as};

    ghost Value = { CuUpTunnel };

    ghost view = { λ t. record { ue = t.ue; bearer = t.bearer; kind = kind_as t.kind; context = t.context } };
}

/// The contexts of terminals, the open tunnels by TEID, and the TEID that is given next.
#[derive(Drop)]
pub struct Contexts {
    /// 0 where all were given.
    pub(crate) next_teid: u32,
    pub(crate) tunnels: Table<u32, CuUpTunnel>,
    pub(crate) contexts: Table<UeId, Context>,
}

impl Model for Contexts {
    ghost use Rattle.cu_up_contexts.specs.contexts.Tables.{CuUpTables};

    ghost Value = { CuUpTables };

    ghost view = { λ c. record { next_teid = c.next_teid; tunnels = c.tunnels; contexts = c.contexts } };
}

/// How many blocks a context of so many bearers with this quota has, in both directions.
fn blocks_of(count: u8, quota: u16) -> u64
    ensures is { result ≡ 2 * count * quota }
    ensures few { result < 2 ^ 32 }
{
    2 * u64::from(count) * u64::from(quota)
}

impl Contexts {
    /// No terminal is served.
    pub fn new(alloc: Global) -> Contexts
        ensures { result ≡ no_tables }
    {
        Contexts {
            next_teid: 1,
            tunnels: Table::new(alloc),
            contexts: Table::new(alloc),
        }
    }

    /// The TEID that is given next, 0 where the last one was given.
    pub fn next_teid(&self) -> u32
        ensures { result ≡ self.now.next_teid }
    {
        self.next_teid
    }

    /// The context of this terminal.
    pub fn get(&self, ue: UeId) -> Option<&Context>
        ensures { option_copied result ≡ find ue_cmp self.now.contexts ue }
    {
        self.contexts.get(&ue)
    }

    /// Whether it has a context of this terminal.
    pub fn has(&self, ue: UeId) -> bool
        ensures { (r : OctetUp) → result ≡ cu_up_has_context (with_tables r self.now) ue }
    {
        self.contexts.has(&ue)
    }

    /// Whether a downlink packet of this bearer is unconfirmed.
    pub fn is_unconfirmed(&self, ue: UeId, bearer: BearerId) -> bool
        ensures { (r : OctetUp) → result ≡ is_unconfirmed (with_tables r self.now) ue bearer }
    {
        match self.contexts.get(&ue) {
            Some(context) => context.is_unconfirmed(bearer),
            None => false,
        }
    }

    /// Whether nothing of this bearer is unconfirmed or waits, and no End Marker is awaited for it.
    pub fn rests(&self, ue: UeId, bearer: BearerId) -> bool
        ensures { (r : OctetUp) → result ≡ cu_up_rests (with_tables r self.now) ue bearer }
    {
        match self.contexts.get(&ue) {
            Some(context) => context.rests(bearer),
            None => true,
        }
    }

    /// Whether there are blocks for a context of so many bearers with this quota.
    #[tactic(auto, unfolding(unit_defs::specs::CuUp::fits, unit_defs::specs::CuUpRecords::reserved))]
    pub fn fits(&self, count: u8, quota: u16) -> bool
        ensures { (codec : Codec) (r : OctetUp) → result ≡ fits (octet_way codec) count quota (with_tables r self.now) }
    {
        let mut blocks = blocks_of(count, quota);
        for (_, context) in self.contexts.iter() {
            if blocks > POOL_BLOCKS {
                return false;
            }
            blocks += blocks_of(context.count(), context.quota());
        }
        blocks <= POOL_BLOCKS
    }
}
