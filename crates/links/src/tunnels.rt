//! The tunnels (TS 29.281), each named by its end, in the order of node and TEID.

ghost use Rattle.std.specs.Prelude.{◌≡◌, ◌==◌, [], length, is_some, IfOk, OnOk, OnErr, ℕ, None};
ghost use Rattle.gnb_types.specs.Orders.{tunnel_cmp};
ghost use Rattle.tables.specs.Tables.{find, at, first_entry, entry_after};
ghost use Rattle.transport_defs.specs.Links.{tunnel_items, tunnel_counts, least_of};
ghost use Rattle.links.specs.links_bag.Answers.{Answers, AnswersSurely, Shows};
ghost use Rattle.links.specs.Tunnels.{tunnel_end, entity, no_tunnels, put_item, head, get, lose, made, opened, closed, next_entry, place_in};

use crate::items::Item;
use crate::link_tallies::tallies::Tallies;
use crate::links_bag::error::LinkError;
use gnb_types::items::Memory;
use gnb_types::keys::{EntityKey, TunnelEnd};
use gnb_types::names::{BearerId, Dir, NodeId, UeId};
use std::alloc::Global;
use std::marker::Model;
use tables::queue::Queue;
use tables::shelf::Shelf;
use tables::table::Table;

/// The open tunnels. Contracts see them with what stands on each, the oldest item first, and with which of them may lose items.
#[derive(Drop)]
pub struct Tunnels {
    queues: Shelf<TunnelEnd, Queue<Item>>,
    /// Whether a tunnel may lose items. It is in order beside the shelf.
    lossy: Table<TunnelEnd, bool>,
    tallies: Tallies,
    alloc: Global,
}

impl Model for Tunnels {
    ghost use Rattle.std.specs.Prelude.{List, ℕ};
    ghost use Rattle.links.specs.Tunnels.{OpenTunnels};

    ghost Value = { OpenTunnels (List ℕ) };

    ghost use Rattle.links.specs.inside.Kept.{TunnelsAreKept};

    ghost view = { λ t. record { tunnels = t.queues; lossy = t.lossy } };

    ghost invariant = { λ t. TunnelsAreKept t.queues t.lossy t.tallies };
}

impl Tunnels {
    /// No tunnel.
    pub fn new(alloc: Global) -> Result<Tunnels, Memory>
        ensures { IfOk result (λ tunnels. tunnels ≡ no_tunnels) }
    {
        Ok(Tunnels {
            queues: Shelf::new(alloc),
            lossy: Table::new(alloc),
            tallies: Tallies::new(alloc),
            alloc,
        })
    }

    /// Puts an item on a tunnel. Where the tunnel isn't open the item is gone, and the answer is false.
    #[tactic(auto, unfolding(crate::specs::Tunnels::put_item))]
    pub fn put(&mut self, end: NodeId, teid: u32, item: Item) -> Result<bool, Memory>
        ensures open { IfOk result (λ b. b ≡ is_some (find tunnel_cmp self.old.tunnels (tunnel_end end teid))) }
        ensures ok { OnOk result (self.new ≡ put_item self.old (tunnel_end end teid) item) }
        ensures err { OnErr result (self.new ≡ self.old) }
    {
        let end = TunnelEnd { node: end, teid };
        let Some(queue) = self.queues.get_mut(&end) else {
            return Ok(false);
        };
        let (key, count) = (item.key, item.count);
        // What can fail stands first, so that an error leaves all as it was.
        self.tallies.enter(key, count)?;
        match queue.push(item) {
            Ok(()) => Ok(true),
            Err(error) => {
                self.tallies.leave(key, count);
                Err(error)
            }
        }
    }

    /// The oldest item of a tunnel.
    #[tactic(auto, unfolding(crate::specs::Tunnels::head))]
    pub fn head(&self, end: NodeId, teid: u32) -> Result<&Item, LinkError>
        ensures { Shows (head self.now (tunnel_end end teid)) self.now result }
    {
        let Some(queue) = self.queues.get(&TunnelEnd { node: end, teid }) else {
            return Err(LinkError::NoSuch);
        };
        match queue.head() {
            Some(item) => Ok(item),
            None => Err(LinkError::Empty),
        }
    }

    /// How many items stand on a tunnel: 0 where it isn't open.
    #[tactic(auto, unfolding(tables::specs::Tables::at))]
    pub fn length(&self, end: NodeId, teid: u32) -> u64
        ensures { result ≡ length (at tunnel_cmp [] self.now.tunnels (tunnel_end end teid)) }
    {
        match self.queues.get(&TunnelEnd { node: end, teid }) {
            Some(queue) => queue.len() as u64,
            None => 0,
        }
    }

    /// Takes the oldest item of a tunnel.
    #[tactic(auto, unfolding(crate::specs::Tunnels::get))]
    pub fn get(&mut self, end: NodeId, teid: u32) -> Result<Item, LinkError>
        ensures { AnswersSurely (get self.old (tunnel_end end teid)) self.old self.new result }
    {
        let end = TunnelEnd { node: end, teid };
        let Some(queue) = self.queues.get_mut(&end) else {
            return Err(LinkError::NoSuch);
        };
        let Some(item) = queue.take() else {
            return Err(LinkError::Empty);
        };
        self.tallies.leave(item.key, item.count);
        Ok(item)
    }

    /// Loses the oldest item of a tunnel that may lose items.
    #[tactic(auto, unfolding(crate::specs::Tunnels::lose, tables::specs::Tables::at))]
    pub fn lose(&mut self, end: NodeId, teid: u32) -> Result<Item, LinkError>
        ensures { AnswersSurely (lose self.old (tunnel_end end teid)) self.old self.new result }
    {
        let key = TunnelEnd { node: end, teid };
        if !self.queues.has(&key) {
            return Err(LinkError::NoSuch);
        }
        match self.lossy.get(&key) {
            Some(true) => self.get(end, teid),
            _ => Err(LinkError::NotAllowed),
        }
    }

    /// Opens a tunnel, where it isn't open; one that is open stays as it is.
    #[tactic(auto, unfolding(crate::specs::Tunnels::opened, tables::specs::Tables::at))]
    pub fn open(&mut self, end: NodeId, teid: u32, lossy: bool) -> Result<(), Memory>
        ensures ok { OnOk result (self.new ≡ opened self.old (tunnel_end end teid) lossy) }
        ensures err { OnErr result (self.new ≡ self.old) }
    {
        if self.queues.has(&TunnelEnd { node: end, teid }) {
            return Ok(());
        }
        self.make(end, teid, lossy)
    }

    /// Makes a tunnel, without items; what stood on it, if it was open, is gone.
    pub fn make(&mut self, end: NodeId, teid: u32, lossy: bool) -> Result<(), Memory>
        ensures ok { OnOk result (self.new ≡ made self.old (tunnel_end end teid) lossy) }
        ensures err { OnErr result (self.new ≡ self.old) }
    {
        let end = TunnelEnd { node: end, teid };
        self.lossy.put(end, lossy)?;
        let before = match self.queues.put(end, Queue::new(self.alloc)) {
            Ok(before) => before,
            Err(error) => {
                self.lossy.take(&end);
                return Err(error);
            }
        };
        let Some(items) = before else {
            return Ok(());
        };
        self.tallies.leave_all(items);
        Ok(())
    }

    /// Closes a tunnel, and gives how many items are discarded: 0 where it isn't open.
    #[tactic(auto, unfolding(tables::specs::Tables::at))]
    pub fn close(&mut self, end: NodeId, teid: u32) -> u64
        ensures discarded { result ≡ length (at tunnel_cmp [] self.old.tunnels (tunnel_end end teid)) }
        ensures closed { self.new ≡ closed self.old (tunnel_end end teid) }
    {
        let end = TunnelEnd { node: end, teid };
        self.lossy.take(&end);
        let Some(items) = self.queues.take(&end) else {
            return 0;
        };
        let discarded = items.len() as u64;
        self.tallies.leave_all(items);
        discarded
    }

    /// The first open tunnel after a place, in the order of node and TEID; the first of all where no place is given.
    pub fn after(&self, place: Option<(NodeId, u32)>) -> Option<(NodeId, u32)>
        ensures { result ≡ place_in (next_entry self.now.tunnels place) }
    {
        match place {
            None => self.first(),
            Some((node, teid)) => self.next(TunnelEnd { node, teid }),
        }
    }

    fn first(&self) -> Option<(NodeId, u32)>
        ensures { result ≡ place_in (first_entry self.now.tunnels) }
    {
        match self.lossy.first() {
            Some((end, _)) => Some((end.node, end.teid)),
            None => None,
        }
    }

    fn next(&self, place: TunnelEnd) -> Option<(NodeId, u32)>
        ensures { result ≡ place_in (entry_after tunnel_cmp self.now.tunnels place) }
    {
        match self.lossy.after(&place) {
            Some((end, _)) => Some((end.node, end.teid)),
            None => None,
        }
    }

    /// How many items of a bearer and direction stand on tunnels, and the least COUNT that one shows.
    pub fn standing(&self, ue: UeId, bearer: BearerId, dir: Dir) -> (u64, Option<u32>)
        ensures number { result.0 ≡ length (tunnel_items (entity ue bearer dir) self.now.tunnels) }
        ensures least { result.1 ≡ least_of (tunnel_counts (entity ue bearer dir) self.now.tunnels) }
    {
        let key = EntityKey { ue, bearer, dir };
        (self.tallies.number(key), self.tallies.least_shown(key))
    }
}
