//! What stands on tunnels and radios.

ghost use Rattle.std.specs.Prelude.{◌≡◌, IfOk};

use gnb_types::items::Memory;
use gnb_types::octets::Octets;
use transport_defs::Item as ItemOf;

/// An item of a tunnel or radio: its bearer and direction, the COUNT beside it, if it shows one, and its octets.
pub type Item = ItemOf<Octets>;

/// A copy of an item.
pub fn copy_item(item: &Item) -> Result<Item, Memory>
    ensures { IfOk result (λ copy. copy ≡ item.now) }
{
    let content = item.content.clone()?;
    Ok(Item {
        key: item.key,
        count: item.count,
        content,
    })
}
