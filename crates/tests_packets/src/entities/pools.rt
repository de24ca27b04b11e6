//! A pool for one key.

ghost use Rattle.std.specs.Prelude.{◌≤◌};

use packet_pool::{Key, Pool};
use std::alloc::Global;
use std::test::Fail;

/// A pool whose blocks are all set apart for one key.
pub fn pool_of(alloc: Global, key: Key, blocks: u32) -> Result<Pool, Fail>
    requires { blocks ≤ 65536 }
{
    let mut pool = Pool::new(alloc, blocks)?;
    pool.reserve_quota(key, blocks)?;
    Ok(pool)
}
