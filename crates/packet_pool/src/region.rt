//! The region: blocks of equal size in one piece of memory. Those that are free form a list through their own first octets.

ghost use Rattle.std.specs.Prelude.{◌≡◌, ◌==◌, ◌<◌, ◌≤◌, ◌≢◌, ℕ, ◌∷◌, length, take, IfOk};
ghost use Rattle.std.specs.List.{count_by};
ghost use Rattle.packet_pool.specs.inside.Regions.{link, octets_at, numbers_from};

use gnb_types::items::Memory;
use std::alloc::Global;
use std::marker::Model;

/// The octets of a block, and so the most octets of a packet.
pub const BLOCK: usize = 2_048;

/// A block. The first octets of a free one are the number of the next free one.
#[derive(Drop)]
pub struct Block {
    octets: [u8; BLOCK],
}

impl Block {
    /// A block that is free, before this one.
    fn linked(next: u32) -> Block
        ensures { link result.octets ≡ next }
    {
        let mut block = Block { octets: [0; BLOCK] };
        block.set_next(next);
        block
    }

    /// The free block after this one.
    #[tactic(auto, unfolding(crate::specs::inside::Regions::link))]
    fn next(&self) -> u32
        ensures { result ≡ link self.now.octets }
    {
        let [a, b, c, d] = [
            self.octets[0],
            self.octets[1],
            self.octets[2],
            self.octets[3],
        ];
        u32::from_le_bytes([a, b, c, d])
    }

    #[tactic(auto, unfolding(crate::specs::inside::Regions::link))]
    fn set_next(&mut self, next: u32)
        ensures { link self.new.octets ≡ next }
    {
        self.octets[..4].copy_from_slice(&next.to_le_bytes());
    }

    fn write(&mut self, bytes: &[u8])
        requires { length bytes.now ≤ BLOCK }
        ensures { take (length bytes.now) self.new.octets ≡ bytes.now }
    {
        self.octets[..bytes.len()].copy_from_slice(bytes);
    }
}

/// Blocks, some of them free. Contracts see the blocks and the list of the free ones.
#[derive(Drop)]
pub struct Region {
    blocks: Vec<Block>,
    first: u32,
    free: u32,
}

impl Model for Region {
    ghost use Rattle.packet_pool.specs.inside.Regions.{RegionState, chain, IsRegion};

    ghost Value = { RegionState };

    ghost view = { λ r. record { blocks = r.blocks.items; free = chain r.blocks.items r.first r.free } };

    ghost invariant = { λ r. IsRegion r.blocks.items r.first r.free };
}

impl Region {
    /// So many blocks, all of them free.
    pub fn new(alloc: Global, count: u32) -> Result<Region, Memory>
        requires { count ≤ 65536 }
        ensures blocks { IfOk result (λ r. length r.blocks ≡ count) }
        ensures free { IfOk result (λ r. r.free ≡ numbers_from 0 count) }
    {
        let mut blocks = Vec::with_capacity(alloc, count as usize)?;
        for number in 0..count {
            blocks.push(Block::linked(number + 1))?;
        }
        Ok(Region {
            blocks,
            first: 0,
            free: count,
        })
    }

    /// Takes the first free block off the list.
    pub fn take_first(&mut self) -> u32
        requires { 0 < length self.old.free }
        ensures first { self.old.free ≡ result ∷ self.new.free }
        ensures within { result < length self.old.blocks }
        ensures blocks { self.new.blocks ≡ self.old.blocks }
    {
        let number = self.first;
        let block = &self.blocks[number as usize];
        self.first = block.next();
        self.free -= 1;
        number
    }

    /// Puts a block that isn't free at the front of the list.
    pub fn give_back(&mut self, number: u32)
        requires within { number < length self.old.blocks }
        requires used { count_by (λ m. m == number) self.old.free ≡ 0 }
        requires room { length self.old.free < length self.old.blocks }
        ensures free { self.new.free ≡ number ∷ self.old.free }
        ensures blocks { length self.new.blocks ≡ length self.old.blocks }
        ensures others { (n : ℕ) → n ≢ number → octets_at self.new.blocks n ≡ octets_at self.old.blocks n }
    {
        let next = self.first;
        let block = &mut self.blocks[number as usize];
        block.set_next(next);
        self.first = number;
        self.free += 1;
    }

    /// Writes octets to the front of a block that isn't free.
    pub fn write(&mut self, number: u32, bytes: &[u8])
        requires within { number < length self.old.blocks }
        requires used { count_by (λ m. m == number) self.old.free ≡ 0 }
        requires limit { length bytes.now ≤ BLOCK }
        ensures free { self.new.free ≡ self.old.free }
        ensures written { take (length bytes.now) (octets_at self.new.blocks number) ≡ bytes.now }
        ensures blocks { length self.new.blocks ≡ length self.old.blocks }
        ensures others { (n : ℕ) → n ≢ number → octets_at self.new.blocks n ≡ octets_at self.old.blocks n }
    {
        let block = &mut self.blocks[number as usize];
        block.write(bytes);
    }

    /// The first octets of a block.
    pub fn read(&self, number: u32, len: usize) -> &[u8]
        requires within { number < length self.now.blocks }
        requires limit { len ≤ BLOCK }
        ensures { result.now ≡ take len (octets_at self.now.blocks number) }
    {
        &self.blocks[number as usize].octets[..len]
    }
}
