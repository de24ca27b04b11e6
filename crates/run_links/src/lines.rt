//! Lines of a transcript.

ghost use Rattle.std.specs.Prelude.{◌≡◌, IfOk};
ghost use Rattle.run_defs.specs.Lines.{tunnel_link, radio_link, shown};

use gnb_types::items::{Items, Memory};
use gnb_types::keys::{EntityKey, TunnelEnd};
use gnb_types::octets::Octets;
use links::items::Item;
use scenario_text::line::{Item as ShownItem, Link, OutLine};

/// Lines in order. Contracts see the list.
pub type Lines = Items<OutLine>;

/// The link of a tunnel.
pub fn tunnel_link(end: TunnelEnd) -> Link
    ensures { result ≡ tunnel_link end }
{
    Link::Tunnel {
        end: end.node,
        teid: end.teid,
    }
}

/// The link of a radio.
pub fn radio_link(key: EntityKey, epoch: u32) -> Link
    ensures { result ≡ radio_link key epoch }
{
    Link::Radio {
        ue: key.ue,
        bearer: key.bearer,
        dir: key.dir,
        epoch,
    }
}

pub(crate) fn shown(key: EntityKey, count: Option<u32>, bytes: Octets) -> ShownItem
    ensures { result ≡ shown key count bytes }
{
    ShownItem {
        ue: key.ue,
        bearer: key.bearer,
        dir: key.dir,
        count,
        bytes,
    }
}

/// What a line shows of an item that stands on a link.
pub(crate) fn show(item: &Item) -> Result<ShownItem, Memory>
    ensures { IfOk result (λ s. s ≡ shown item.now.key item.now.count item.now.content) }
{
    let bytes = item.content.clone()?;
    Ok(shown(item.key, item.count, bytes))
}

/// What a line shows of an item that was taken.
pub(crate) fn show_taken(item: Item) -> ShownItem
    ensures { result ≡ shown item.key item.count item.content }
{
    shown(item.key, item.count, item.content)
}
