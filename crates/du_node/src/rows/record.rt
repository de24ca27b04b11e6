//! What a DU keeps.

ghost use Rattle.std.specs.Prelude.{◌≡◌, false, true, IsTrue, None};
ghost use Rattle.gnb_types.specs.Orders.{ue_cmp};
ghost use Rattle.tables.specs.Tables.{find};
ghost use Rattle.unit_defs.specs.Du.{new_du, du_node};
ghost use Rattle.unit_defs.specs.Accessors.{du_epoch};
ghost use Rattle.unit_defs.specs.Static.{du_set_up};
ghost use Rattle.unit_defs.specs.codec_defs.Reading.{ReadsItems};
ghost use Rattle.unit_defs.specs.octet_defs.Codec.{Codec};
ghost use Rattle.unit_defs.specs.octet_defs.Reading.{du_link};
ghost use Rattle.du_contexts.specs.Tables.{is_item};
ghost use Rattle.du_contexts.specs.Placing.{IsPlaced};

use du_contexts::contexts::DuContexts;
use gnb_types::names::{Gnb, NodeId, UeId};
use gnb_types::plans::Plan;
use std::alloc::Global;
use std::marker::Model;
use unit_messages::steps::StepError;
use unit_requests::Requests;

/// The DU `number` of a gNB: whether its F1 interface is set up, the contexts of its terminals, its open requests and the replies that it
/// keeps. Contracts see the record of the table of rows.
#[derive(Drop)]
pub struct DuRecord {
    pub(crate) gnb: Gnb,
    pub(crate) number: u8,
    pub(crate) is_set_up: bool,
    pub(crate) contexts: DuContexts,
    pub(crate) requests: Requests,
}

impl Model for DuRecord {
    ghost use Rattle.du_contexts.specs.Tables.{OctetDu};
    ghost use Rattle.du_node.specs.rows.Records.{du_record};

    ghost Value = { OctetDu };

    ghost view = { λ r. du_record r.gnb r.number r.is_set_up r.contexts r.requests };
}

impl DuRecord {
    /// A DU that is not set up, and serves no terminal.
    pub fn new(alloc: Global, gnb: Gnb, number: u8) -> DuRecord
        ensures { result ≡ new_du gnb number }
    {
        DuRecord {
            gnb,
            number,
            is_set_up: false,
            contexts: DuContexts::new(alloc),
            requests: Requests::new(alloc),
        }
    }

    pub fn node(&self) -> NodeId
        ensures { result ≡ du_node self.now }
    {
        NodeId::Du(self.gnb, self.number)
    }

    /// Whether this node and the DU share an interface: the CU-CP of its gNB, or a terminal.
    pub fn gnb(&self) -> Gnb
        ensures { result ≡ self.now.gnb }
    {
        self.gnb
    }

    /// It counts as set up.
    pub fn mark_set_up(&mut self)
        ensures { self.new ≡ du_set_up self.old }
    {
        self.is_set_up = true;
    }

    /// The TEID that is given next, 0 where the last one was given.
    pub fn next_teid(&self) -> u32
        ensures { result ≡ self.now.next_teid }
    {
        self.contexts.next_teid()
    }

    /// The epoch of the context of this terminal, None where there is none.
    pub fn epoch(&self, ue: UeId) -> Option<u32>
        ensures { result ≡ du_epoch self.now ue }
    {
        self.contexts.epoch(ue)
    }

    /// Whether octets decode as an item of this tunnel.
    pub fn decodes(&self, teid: u32, octets: &[u8]) -> bool
        ensures { (codec : Codec) → ReadsItems codec → result ≡ is_item codec octets.now (du_link self.now teid) }
    {
        self.contexts.decodes(teid, octets)
    }

    /// A terminal without a context gets the one of this plan, as if it had been attached. Its uplinks go to every second TEID of the
    /// CU-UP from `uplink` on.
    pub fn place_static(&mut self, alloc: Global, plan: Plan, uplink: u32) -> Result<(), StepError>
        requires { find ue_cmp self.old.contexts plan.ue ≡ None }
        ensures { IsPlaced self.old plan uplink self.new result }
    {
        self.contexts.place_static(alloc, self.gnb, plan, uplink)
    }
}
