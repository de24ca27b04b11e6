//! What the blocks have.

ghost use Rattle.std.specs.Prelude.{◌≡◌, ◌<◌, ◌≤◌, length, Some, IsSome, IfSome, slice_set};
ghost use Rattle.std.specs.Option.{option_map};
ghost use Rattle.packet_pool.specs.inside.Contents.{content_at, stored_in, marked};

use crate::region::{BLOCK, Region};
use gnb_types::keys::EntityKey;

/// What a used block has.
#[derive(Clone, Copy)]
pub struct Content {
    pub key: EntityKey,
    pub len: u32,
    pub parked: bool,
}

/// The packet in a block.
pub fn octets<'a>(region: &'a Region, contents: &Vec<Option<Content>>, block: u32) -> &'a [u8]
    requires within { block < length region.now.blocks }
    requires short { IfSome (content_at contents.now.items block) (λ c. c.len ≤ BLOCK) }
    requires stored { IsSome (content_at contents.now.items block) }
    ensures { option_map (λ packet. packet.bytes) (stored_in region.now.blocks contents.now.items block) ≡ Some result.now }
{
    match content_of(contents, block) {
        Some(content) => region.read(block, content.len as usize),
        None => &[],
    }
}

fn content_of(contents: &Vec<Option<Content>>, block: u32) -> Option<Content>
    ensures { result ≡ content_at contents.now.items block }
{
    match contents.as_slice().get(block as usize) {
        Some(content) => *content,
        None => None,
    }
}

/// Notes whether a used block is parked.
pub fn mark(contents: &mut Vec<Option<Content>>, block: u32, parked: bool)
    requires { block < length contents.old.items }
    ensures { contents.new.items ≡ slice_set contents.old.items block (marked parked (content_at contents.old.items block)) }
{
    if let Some(content) = &mut contents[block as usize] {
        content.parked = parked;
    }
}
