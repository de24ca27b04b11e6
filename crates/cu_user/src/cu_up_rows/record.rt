//! What a CU-UP keeps.

ghost use Rattle.std.specs.Prelude.{◌≡◌, ◌≤◌, None, is_some};
ghost use Rattle.std.specs.Option.{option_and_then};
ghost use Rattle.gnb_types.specs.Orders.{ue_cmp};
ghost use Rattle.tables.specs.Tables.{find};
ghost use Rattle.unit_defs.specs.CuUp.{new_cu_up, up_node};
ghost use Rattle.unit_defs.specs.Accessors.{cu_up_has_context, is_unconfirmed, cu_up_rests};
ghost use Rattle.unit_defs.specs.Static.{cu_up_set_up};
ghost use Rattle.unit_defs.specs.codec_defs.Reading.{ReadsItems};
ghost use Rattle.unit_defs.specs.octet_defs.Codec.{Codec};
ghost use Rattle.unit_defs.specs.octet_defs.Reading.{up_link};
ghost use Rattle.cu_up_contexts.specs.contexts.Placing.{IsPlaced};

use cu_up_contexts::contexts::Contexts;
use cu_up_contexts::contexts::placing::PlaceError;
use gnb_types::names::{BearerId, Gnb, NodeId, UeId};
use gnb_types::plans::Plan;
use std::alloc::Global;
use std::marker::Model;
use unit_requests::Requests;

/// The CU-UP `number` of a gNB: whether its E1 interface is set up, the contexts of its terminals, its open requests and the replies that
/// it keeps. Contracts see the record of the table of rows.
#[derive(Drop)]
pub struct CuUpRecord {
    pub(crate) gnb: Gnb,
    pub(crate) number: u8,
    pub(crate) is_set_up: bool,
    pub(crate) contexts: Contexts,
    pub(crate) requests: Requests,
}

impl Model for CuUpRecord {
    ghost use Rattle.cu_up_contexts.specs.contexts.Tables.{OctetUp};
    ghost use Rattle.cu_user.specs.cu_up_rows.Records.{cu_up_record};

    ghost Value = { OctetUp };

    ghost view = { λ r. cu_up_record r.gnb r.number r.is_set_up r.contexts r.requests };
}

impl CuUpRecord {
    /// A CU-UP that is not set up, and serves no terminal.
    pub fn new(alloc: Global, gnb: Gnb, number: u8) -> CuUpRecord
        ensures { result ≡ new_cu_up gnb number }
    {
        CuUpRecord {
            gnb,
            number,
            is_set_up: false,
            contexts: Contexts::new(alloc),
            requests: Requests::new(alloc),
        }
    }

    pub fn node(&self) -> NodeId
        ensures { result ≡ up_node self.now }
    {
        NodeId::CuUp(self.gnb, self.number)
    }

    /// It counts as set up.
    pub fn mark_set_up(&mut self)
        ensures { self.new ≡ cu_up_set_up self.old }
    {
        self.is_set_up = true;
    }

    /// The TEID that is given next, 0 where the last one was given.
    pub fn next_teid(&self) -> u32
        ensures { result ≡ self.now.next_teid }
    {
        self.contexts.next_teid()
    }

    /// Whether it has a context of this terminal.
    pub fn has_context(&self, ue: UeId) -> bool
        ensures { result ≡ cu_up_has_context self.now ue }
    {
        self.contexts.has(ue)
    }

    /// Whether a downlink packet of this bearer is unconfirmed.
    pub fn is_unconfirmed(&self, ue: UeId, bearer: BearerId) -> bool
        ensures { result ≡ is_unconfirmed self.now ue bearer }
    {
        self.contexts.is_unconfirmed(ue, bearer)
    }

    /// Whether nothing of this bearer is unconfirmed or waits, and no End Marker is awaited for it.
    pub fn rests(&self, ue: UeId, bearer: BearerId) -> bool
        ensures { result ≡ cu_up_rests self.now ue bearer }
    {
        self.contexts.rests(ue, bearer)
    }

    /// Whether octets decode as an item of this tunnel.
    pub fn decodes(&self, teid: u32, octets: &[u8]) -> bool
        ensures { (codec : Codec) → ReadsItems codec → result
            ≡ is_some (option_and_then (λ on. codec.read_item on.0 on.1 octets.now) (up_link self.now teid)) }
    {
        self.contexts.decodes(teid, octets)
    }

    /// A terminal without a context gets the one of this plan, as if it had been attached. Its downlinks go to the TEIDs of the DU from
    /// `downlink` on.
    pub fn place_static(
        &mut self,
        alloc: Global,
        plan: Plan,
        downlink: u32,
    ) -> Result<(), PlaceError>
        requires least { 4 ≤ plan.quota }
        requires most { plan.quota ≤ 4096 }
        requires few { plan.bearers ≤ 8 }
        requires new { find ue_cmp self.old.contexts plan.ue ≡ None }
        ensures { IsPlaced self.old plan downlink self.new result }
    {
        self.contexts.place_static(alloc, self.gnb, plan, downlink)
    }
}
