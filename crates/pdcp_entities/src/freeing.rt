//! Packets that are given up: their slots are emptied, and their blocks go back to the pool.

ghost use Rattle.std.specs.Prelude.{◌≡◌, ◌+◌, ◌^◌, ◌<◌, ◌≤◌, not, nat_lt, length, filter, IsSome, is_some, IfSome, if◌then◌else◌};
ghost use Rattle.pdcp_defs.specs.Senders.{is_reported};
ghost use Rattle.pdcp_defs.specs.pool_defs.Pools.{packet_at, IsPool};
ghost use Rattle.packet_pool.specs.declared.region.TheConstants.{BLOCK};
ghost use Rattle.pdcp_entities.specs.Bits.{bits_of};
ghost use Rattle.pdcp_entities.specs.Packets.{AreParked, Frees, freed};
ghost use Rattle.pdcp_entities.specs.inside.Rings.{held, IsLastFull};
ghost use Rattle.pdcp_entities.specs.inside.Freeing.{freed_if};

use crate::bits::is_reported;
use crate::ring::Ring;
use packet_pool::Pool;

/// Gives the block at a place back.
#[tactic(auto, unfolding(crate::specs::Packets::freed))]
fn free(pool: &mut Pool, place: u32)
    requires { IsSome (packet_at pool.old place) }
    ensures freed { pool.new ≡ freed pool.old place }
    ensures sound { IsPool BLOCK pool.old }
{
    let r = pool.unpark(place);
    pool.take(r);
}

/// Gives the block at a place back, if there is one, and says how many that are.
fn free_if(pool: &mut Pool, place: Option<u32>) -> u32
    requires { IfSome place (λ p. IsSome (packet_at pool.old p)) }
    ensures freed { pool.new ≡ freed_if pool.old place }
    ensures count { result ≡ (if is_some place then 1 else 0) }
    ensures sound { IfSome place (λ p. IsPool BLOCK pool.old) }
{
    match place {
        Some(place) => {
            free(pool, place);
            1
        }
        None => 0,
    }
}

/// Gives up what is held up to a COUNT, and says how much that was.
pub(crate) fn free_to(ring: &mut Ring, pool: &mut Pool, count: u32) -> u32
    requires in_range { ring.old.first + length ring.old.slots.items < 2 ^ 32 }
    requires parked { AreParked pool.old (held ring.old) }
    ensures held { held ring.new ≡ filter (λ e. nat_lt count e.0) (held ring.old) }
    ensures freed { Frees (filter (λ e. not (nat_lt count e.0)) (held ring.old))
        pool.old pool.new }
    ensures count { result ≡ length (filter (λ e. not (nat_lt count e.0)) (held ring.old)) }
    ensures parked { AreParked pool.new (held ring.new) }
    ensures end { ring.new.first + length ring.new.slots.items
        ≡ ring.old.first + length ring.old.slots.items }
    ensures after { ring.old.first ≤ ring.new.first }
    ensures last { IsLastFull ring.old.slots.items → IsLastFull ring.new.slots.items }
    ensures capacity { ring.new.slots.capacity ≡ ring.old.slots.capacity }
{
    let mut freed = 0;
    while ring.begins_by(count) {
        freed += free_if(pool, ring.pop());
    }
    freed
}

/// Gives up what a status report confirms, and says how much that was.
pub(crate) fn free_reported(ring: &mut Ring, pool: &mut Pool, fmc: u32, bits: &[u8]) -> u32
    requires in_range { ring.old.first + length ring.old.slots.items < 2 ^ 32 }
    requires parked { AreParked pool.old (held ring.old) }
    ensures held { held ring.new
        ≡ filter (λ e. not (is_reported fmc (bits_of bits.now) e.0)) (held ring.old) }
    ensures freed { Frees (filter (λ e. is_reported fmc (bits_of bits.now) e.0) (held ring.old))
        pool.old pool.new }
    ensures count { result
        ≡ length (filter (λ e. is_reported fmc (bits_of bits.now) e.0) (held ring.old)) }
    ensures parked { AreParked pool.new (held ring.new) }
    ensures first { ring.new.first ≡ ring.old.first }
    ensures length { length ring.new.slots.items ≡ length ring.old.slots.items }
    ensures capacity { ring.new.slots.capacity ≡ ring.old.slots.capacity }
{
    let mut freed = 0;
    for i in 0..ring.len() {
        if !is_reported(fmc, bits, ring.first + i as u32) {
            continue;
        }
        freed += free_if(pool, ring.empty(i));
    }
    freed
}
