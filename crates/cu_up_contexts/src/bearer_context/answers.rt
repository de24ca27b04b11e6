//! What the answers to control say of a context, and the tunnels that are opened for it.

ghost use Rattle.std.specs.Prelude.{◌≡◌, ℕ, ◌+◌, ◌≤◌, ◌^◌, ◌++◌, length, map, IfOk, OnOk};
ghost use Rattle.std.specs.List.{flat_map};
ghost use Rattle.gnb_types.specs.declared.names.UeId.{UeId};
ghost use Rattle.unit_defs.specs.CuUp.{names, statuses, teids_from, entries, entries_of};
ghost use Rattle.unit_defs.specs.Messages.{tunnel_of, bearers_of, statuses_of, are_bearers};
ghost use Rattle.unit_defs.specs.octet_defs.Codec.{Codec, octet_way};
ghost use Rattle.cu_up_bearer.specs.bearers.Bearers.{kept};
ghost use Rattle.cu_up_items.specs.items.Items.{kind_as};
ghost use Rattle.cu_up_contexts.specs.bearer_context.Answers.{teid_of_kind, tunnels_of, entry_as};

use crate::bearer_context::context::Context;
use cu_up_bearer::bearers::Bearer;
use cu_up_bearer::orders::freezing::status;
use cu_up_items::items::Kind;
use gnb_types::items::{Items, Memory};
use gnb_types::names::BearerId;
use gnb_types::plans::{SnStatus, StatusList, Tunnel, TunnelList};
use std::alloc::Global;

/// A tunnel that is opened for a bearer.
#[derive(Clone, Copy)]
pub struct Opening {
    pub teid: u32,
    pub bearer: BearerId,
    pub kind: Kind,
}

/// A list of openings. Contracts see the list.
pub type OpeningList = Items<Opening>;

/// The tunnel of a kind that a bearer of a new context has, if any.
fn teid_of_kind(bearer: &Bearer, kind: Kind) -> Option<u32>
    ensures { (codec : Codec) → result ≡ teid_of_kind codec kind (kept bearer.now) }
{
    match kind {
        Kind::N3 => bearer.n3,
        Kind::F1uUplink => bearer.uplinks.get(0).copied(),
        Kind::ForwardingDown => bearer.forward_down,
        Kind::ForwardingUp => bearer.forward_up,
    }
}

/// The tunnel of a bearer, if it has one, stands last.
fn push_tunnel(bearer: BearerId, teid: Option<u32>, tunnels: &mut TunnelList) -> Result<(), Memory>
    ensures { OnOk result (tunnels.new ≡ tunnels.old ++ tunnel_of bearer teid) }
{
    if let Some(teid) = teid {
        tunnels.push(Tunnel { bearer, teid })?;
    }
    Ok(())
}

/// An opening of this kind, if there is a tunnel, stands last.
fn push_opening(
    bearer: BearerId,
    kind: Kind,
    teid: Option<u32>,
    openings: &mut OpeningList,
) -> Result<(), Memory>
    ensures { (ue : UeId) (context : ℕ) → OnOk result (map (entry_as ue context) openings.new
        ≡ map (entry_as ue context) openings.old ++ entries ue bearer context (kind_as kind) teid) }
{
    if let Some(teid) = teid {
        openings.push(Opening { teid, bearer, kind })?;
    }
    Ok(())
}

/// The tunnels of a bearer.
fn push_openings(id: BearerId, bearer: &Bearer, openings: &mut OpeningList) -> Result<(), Memory>
    ensures { (ue : UeId) (context : ℕ) → OnOk result (map (entry_as ue context) openings.new
        ≡ map (entry_as ue context) openings.old ++ entries_of ue context (id, kept bearer.now)) }
{
    push_opening(id, Kind::N3, bearer.n3, openings)?;
    for teid in bearer.uplinks.as_slice() {
        push_opening(id, Kind::F1uUplink, Some(*teid), openings)?;
    }
    push_opening(id, Kind::ForwardingDown, bearer.forward_down, openings)?;
    push_opening(id, Kind::ForwardingUp, bearer.forward_up, openings)
}

impl Context {
    /// The tunnels of its bearers, as they are opened.
    pub fn openings(&self, alloc: Global) -> Result<OpeningList, Memory>
        ensures { (ue : UeId) (context : ℕ) → IfOk result (λ openings. map (entry_as ue context) openings
            ≡ flat_map (entries_of ue context) self.now.bearers) }
    {
        let mut openings = Items::new(alloc);
        let mut number = 1;
        for bearer in self.bearers.iter() {
            push_openings(BearerId(number), bearer, &mut openings)?;
            number += 1;
        }
        Ok(openings)
    }

    /// The tunnels of a kind that its bearers have.
    pub fn tunnels(&self, alloc: Global, kind: Kind) -> Result<TunnelList, Memory>
        ensures { (codec : Codec) → IfOk result (λ tunnels. tunnels ≡ tunnels_of codec kind self.now) }
    {
        let mut tunnels = Items::new(alloc);
        let mut number = 1;
        for bearer in self.bearers.iter() {
            push_tunnel(BearerId(number), teid_of_kind(bearer, kind), &mut tunnels)?;
            number += 1;
        }
        Ok(tunnels)
    }

    /// One more uplink for each of its bearers, with TEIDs from `next` on.
    pub fn uplinks_from(&self, alloc: Global, next: u32) -> Result<TunnelList, Memory>
        requires { next + length self.now.bearers ≤ 2 ^ 32 }
        ensures { (codec : Codec) → IfOk result (λ uplinks. uplinks ≡ teids_from (octet_way codec) next self.now.bearers) }
    {
        let mut uplinks = Items::new(alloc);
        let mut number = 1;
        let mut teid = u64::from(next);
        for _bearer in self.bearers.iter() {
            uplinks.push(Tunnel {
                bearer: BearerId(number),
                teid: teid as u32,
            })?;
            number += 1;
            teid += 1;
        }
        Ok(uplinks)
    }

    /// Where the target is to go on, for each bearer.
    pub fn statuses(&self, alloc: Global) -> Result<StatusList, Memory>
        ensures { (codec : Codec) → IfOk result (λ list. list ≡ statuses (octet_way codec) self.now) }
    {
        let mut list = Items::new(alloc);
        let mut number = 1;
        for bearer in self.bearers.iter() {
            list.push(status(bearer, alloc, BearerId(number))?)?;
            number += 1;
        }
        Ok(list)
    }

    /// Whether tunnels name its bearers, ascending, each once.
    pub fn is_named_by(&self, tunnels: &[Tunnel]) -> bool
        ensures { (codec : Codec) → result ≡ are_bearers (names (octet_way codec) self.now) (bearers_of tunnels.now) }
    {
        if tunnels.len() != self.bearers.len() {
            return false;
        }
        let mut number = 1u64;
        for tunnel in tunnels {
            if u64::from(tunnel.bearer.0) != number {
                return false;
            }
            number += 1;
        }
        true
    }

    /// Whether statuses name its bearers, ascending, each once.
    pub fn is_named_by_statuses(&self, statuses: &[SnStatus]) -> bool
        ensures { (codec : Codec) → result ≡ are_bearers (names (octet_way codec) self.now) (statuses_of statuses.now) }
    {
        if statuses.len() != self.bearers.len() {
            return false;
        }
        let mut number = 1u64;
        for status in statuses {
            if u64::from(status.bearer.0) != number {
                return false;
            }
            number += 1;
        }
        true
    }
}
