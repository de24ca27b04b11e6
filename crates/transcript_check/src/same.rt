//! Whether two items or two control messages are the same.

ghost use Rattle.std.specs.Prelude.{◌≡◌, ◌↔◌, IsTrue};

use scenario_text::line::{Item, Message};

pub fn same_item(a: &Item, b: &Item) -> bool
    ensures { IsTrue result ↔ (a.now ≡ b.now) }
{
    a.ue == b.ue
        && a.bearer == b.bearer
        && a.dir == b.dir
        && a.count == b.count
        && same_bytes(a.bytes.as_slice(), b.bytes.as_slice())
}

pub fn same_message(a: &Message, b: &Message) -> bool
    ensures { IsTrue result ↔ (a.now ≡ b.now) }
{
    a.number == b.number
        && a.from == b.from
        && a.to == b.to
        && a.ue == b.ue
        && same_bytes(a.bytes.as_slice(), b.bytes.as_slice())
}

/// Whether two byte strings are the same.
pub fn same_bytes(a: &[u8], b: &[u8]) -> bool
    ensures { IsTrue result ↔ (a.now ≡ b.now) }
{
    a == b
}
