//! The blocks for the packets of one direction of a bearer.

ghost use Rattle.std.specs.Prelude.{◌≡◌, ◌≤◌, IfOk};
ghost use Rattle.pdcp_defs.specs.pool_defs.Pools.{new_pool, with_quota};

use gnb_types::octets::Memory;
use packet_pool::{Key, Pool, QuotaError};
use std::alloc::Global;

/// A pool of so many blocks, all of them for one key.
pub(crate) fn own_pool(alloc: Global, key: Key, blocks: u16) -> Result<Pool, Memory>
    ensures { IfOk result (λ pool. pool ≡ with_quota (new_pool blocks) key blocks) }
{
    let mut pool = Pool::new(alloc, u32::from(blocks))?;
    match pool.reserve_quota(key, u32::from(blocks)) {
        Ok(()) => Ok(pool),
        Err(QuotaError::Memory) => Err(Memory::told()),
        // The one quota is all blocks.
        Err(QuotaError::NoQuota) => unreachable!(),
    }
}
