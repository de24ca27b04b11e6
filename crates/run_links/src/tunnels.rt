//! Tunnels: items are put, taken and lost, with the lines of it; tunnels are opened and closed.

ghost use Rattle.std.specs.Prelude.{◌≡◌, ◌∷◌, [], List, ℕ, IfOk, IsOk, OnOk, Some};
ghost use Rattle.gnb_types.specs.Orders.{tunnel_cmp};
ghost use Rattle.tables.specs.Tables.{find};
ghost use Rattle.transport_defs.specs.declared.Item.{Item};
ghost use Rattle.run_defs.specs.Steps.{put_on_tunnel, with_tunnel, opens, closes};
ghost use Rattle.run_defs.specs.Events.{taken_off, is_lossy, lose_item};
ghost use Rattle.scenario_text.specs.declared.line.OutLine.{OutLine as ShownLine};
ghost use Rattle.run_links.specs.Networks.{OctetWorld};
ghost use Rattle.run_links.specs.Told.{Makes, Ends, ShowsOldest, oldest_in, loses, lost_by, stands_on};

use crate::lines::{Lines, show, show_taken, tunnel_link};
use crate::network::Network;
use gnb_types::items::Memory;
use gnb_types::keys::TunnelEnd;
use gnb_types::names::NodeId;
use gnb_types::reasons::RefuseReason;
use links::error::LinkError;
use links::items::Item;
use scenario_text::line::OutLine;

/// Whether a tunnel that ends there may lose items: only an F1-U downlink tunnel may.
fn is_lossy(node: NodeId) -> bool
    ensures { (world : OctetWorld) → result ≡ is_lossy world node }
{
    matches!(node, NodeId::Du(_, _))
}

/// Whether what stands on a tunnel may be lost, or why it can't.
fn lost_by(lossy: bool, stands: Result<(), RefuseReason>) -> Result<(), RefuseReason>
    ensures { result ≡ lost_by lossy stands }
{
    match stands {
        Err(RefuseReason::NoSuch) => Err(RefuseReason::NoSuch),
        stands if lossy => stands,
        _ => Err(RefuseReason::NotAllowed),
    }
}

impl Network {
    /// Puts an item on a tunnel. On one that isn't open it is lost.
    pub fn put_on_tunnel(
        &mut self,
        end: TunnelEnd,
        item: Item,
        lines: &mut Lines,
    ) -> Result<(), Memory>
        ensures told { OnOk result (Makes (λ world. put_on_tunnel world end item) self.old self.new lines.old lines.new) }
        ensures bag { self.new.bag ≡ self.old.bag }
    {
        let link = tunnel_link(end);
        lines.push(OutLine::Put {
            link,
            item: show(&item)?,
        })?;
        if self.tunnels.put(end.node, end.teid, item)? {
            return Ok(());
        }
        lines.push(OutLine::Lost { link, items: 1 })
    }

    /// Opens a tunnel, where it isn't open.
    pub fn open(&mut self, end: TunnelEnd) -> Result<(), Memory>
        ensures told { OnOk result ((lines : List ShownLine) → Makes (λ world. opens world end) self.old self.new lines lines) }
        ensures bag { OnOk result (self.new.bag ≡ self.old.bag) }
    {
        self.open_end(end)
    }

    #[tactic(auto, unfolding(links::specs::Tunnels::opened))]
    fn open_end(&mut self, end: TunnelEnd) -> Result<(), Memory>
        ensures { OnOk result ((self.new.tunnels.tunnels ≡ with_tunnel end self.old.tunnels.tunnels) × (self.new ≡ record self.old { tunnels = self.new.tunnels })) }
    {
        self.tunnels.open(end.node, end.teid, is_lossy(end.node))
    }

    /// Closes a tunnel. What stands on it is lost.
    pub fn close(&mut self, end: TunnelEnd, lines: &mut Lines) -> Result<(), Memory>
        ensures told { OnOk result (Makes (λ world. closes world end) self.old self.new lines.old lines.new) }
        ensures bag { self.new.bag ≡ self.old.bag }
    {
        let items = self.tunnels.close(end.node, end.teid);
        if items > 0 {
            let link = tunnel_link(end);
            return lines.push(OutLine::Lost { link, items });
        }
        Ok(())
    }

    /// The oldest item of a tunnel.
    #[tactic(auto, using(crate::proofs::Standing::head_shows, crate::proofs::Standing::head_refuses))]
    pub fn oldest(&self, end: TunnelEnd) -> Result<&Item, RefuseReason>
        ensures { ShowsOldest (find tunnel_cmp self.now.tunnels.tunnels end) result }
    {
        match self.tunnels.head(end.node, end.teid) {
            Ok(item) => Ok(item),
            Err(LinkError::NoSuch) => Err(RefuseReason::NoSuch),
            Err(_) => Err(RefuseReason::Empty),
        }
    }

    /// The oldest item of a tunnel is taken. There is one.
    #[tactic(auto, using(crate::proofs::OnTunnels::takes_one))]
    pub fn take_off(&mut self, end: TunnelEnd, lines: &mut Lines) -> Result<(), Memory>
        requires { IsOk (oldest_in (find tunnel_cmp self.old.tunnels.tunnels end)) }
        ensures told { OnOk result ((item : Item (List ℕ)) (rest : List (Item (List ℕ)))
            → find tunnel_cmp self.old.tunnels.tunnels end ≡ Some (item ∷ rest)
            → Makes (λ world. taken_off world end item rest) self.old self.new lines.old lines.new) }
        ensures bag { self.new.bag ≡ self.old.bag }
    {
        let link = tunnel_link(end);
        match self.tunnels.get(end.node, end.teid) {
            Ok(item) => lines.push(OutLine::Got {
                link,
                item: show_taken(item),
            }),
            // An item stands there.
            Err(_) => unreachable!(),
        }
    }

    /// `lose` of a tunnel's item: the oldest one is lost, where the tunnel may lose any.
    pub fn lose_item(&mut self, end: TunnelEnd, lines: &mut Lines) -> Result<(), Memory>
        ensures { OnOk result (Ends (λ world. lose_item world end) self.old self.new lines.old lines.new) }
    {
        if let Err(reason) = self.may_lose(end) {
            return lines.push(OutLine::Refused { reason });
        }
        drop(self.tunnels.get(end.node, end.teid));
        let link = tunnel_link(end);
        lines.push(OutLine::Lost { link, items: 1 })
    }

    /// Why the oldest item of a tunnel can't be lost.
    fn may_lose(&self, end: TunnelEnd) -> Result<(), RefuseReason>
        ensures { (world : OctetWorld) → result ≡ loses world end (find tunnel_cmp self.now.tunnels.tunnels end) }
    {
        lost_by(is_lossy(end.node), self.stands_on(end))
    }

    /// Whether something stands on a tunnel.
    #[tactic(auto, using(crate::proofs::Standing::stands_oldest, crate::proofs::Standing::stands_none))]
    fn stands_on(&self, end: TunnelEnd) -> Result<(), RefuseReason>
        ensures { result ≡ stands_on (find tunnel_cmp self.now.tunnels.tunnels end) }
    {
        match self.oldest(end) {
            Ok(_) => Ok(()),
            Err(reason) => Err(reason),
        }
    }
}
