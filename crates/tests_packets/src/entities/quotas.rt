//! Each public call once with ample memory, and a block that is used again beside one that is kept.

ghost use Rattle.std.specs.Prelude.{◌≡◌};
ghost use Rattle.pdcp_defs.specs.pool_defs.Pools.{new_pool};

use gnb_types::names::{BearerId, Dir, UeId};
use packet_pool::{Key, Pool, QuotaError};
use std::process::Abort;
use std::test::Fail;

const FIRST: Key = Key {
    ue: UeId(1),
    bearer: BearerId(1),
    dir: Dir::Dl,
};

const SECOND: Key = Key {
    ue: UeId(1),
    bearer: BearerId(1),
    dir: Dir::Ul,
};

#[test]
fn a_pool_from_end_to_end(rt: HostRuntime) -> Result<(), Fail> {
    let mut pool = Pool::new(rt.alloc(), 3)?;
    let mut other = Pool::new(rt.alloc(), 1)?;
    assert!(rt; other.reserve_quota(SECOND, 2) == Err(QuotaError::NoQuota));
    assert!(rt; is_used_to_its_end(&rt, &mut pool)?);
    Ok(())
}

/// Whether each call of a pool of three blocks has its answer.
fn is_used_to_its_end(rt: &impl Abort, pool: &mut Pool) -> Result<bool, Fail>
    requires { pool.old ≡ new_pool 3 }
{
    let empty = pool.quota(FIRST);
    pool.reserve_quota(FIRST, 2)?;
    let reserved = pool.quota(FIRST);
    let r = pool.put(FIRST, &[0x45, 0x00]).expect(rt, "the quota is 2");
    let is_put = pool.bytes(&r) == [0x45, 0x00].as_slice();
    let place = pool.park(r);
    let is_parked = pool.parked_bytes(place) == [0x45, 0x00].as_slice();
    let used = pool.used(FIRST);
    let r = pool.unpark(place);
    pool.take(r);
    assert!(rt; pool.used(FIRST) == 0);
    pool.release_quota(FIRST);
    let numbers = [empty, reserved, used, pool.quota(FIRST)];
    Ok(is_put && is_parked && numbers == [0, 2, 1, 0])
}

/// The first key's block is given back and used again; the second key's packet stays.
#[test]
fn a_block_is_used_again(rt: HostRuntime) -> Result<(), Fail> {
    let mut pool = Pool::new(rt.alloc(), 2)?;
    assert!(rt; is_used_beside_another(&rt, &mut pool)?);
    Ok(())
}

fn is_used_beside_another(rt: &impl Abort, pool: &mut Pool) -> Result<bool, Fail>
    requires { pool.old ≡ new_pool 2 }
{
    pool.reserve_quota(FIRST, 1)?;
    pool.reserve_quota(SECOND, 1)?;
    let first = pool.put(FIRST, &[0x01]).expect(rt, "the quota is 1");
    pool.put(FIRST, &[0x00])
        .expect_err(rt, "the quota is used up");
    let second = pool.put(SECOND, &[0x02]).expect(rt, "the quota is 1");
    pool.take(first);
    let again = pool
        .put(FIRST, &[0xFF])
        .expect(rt, "a block was given back");
    let stays = pool.bytes(&second) == [0x02].as_slice();
    let is_new = pool.bytes(&again) == [0xFF].as_slice();
    pool.take(again);
    pool.take(second);
    Ok(stays && is_new)
}
