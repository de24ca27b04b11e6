//! Laws of the pool of packets. Each function does nothing: its contract is the law.

ghost use Rattle.std.specs.Prelude.{◌≡◌, ℕ, [], List};
ghost use Rattle.gnb_types.specs.declared.keys.EntityKey.{EntityKey};
ghost use Rattle.pdcp_defs.specs.pool_defs.Pools.{PoolState, quota};
ghost use Rattle.law_entities.specs.pool.Calls.{Call, Answer, no_names, Runs, own_calls, own_answers};

/// Keys are isolated: what the calls of one key are answered, in any run of calls of a pool in which no packet lies yet, is what its
/// own calls alone are answered in any pool where it has the same quota, whatever blocks and places either pool gives.
pub fn keys_are_isolated()
    ensures { (limit : ℕ) (p q : PoolState) (key : EntityKey) (calls : List Call) (answers own : List Answer)
        → p.refs ≡ [] → q.refs ≡ []
        → quota p key ≡ quota q key
        → Runs limit p no_names calls answers → Runs limit q no_names (own_calls key calls) own
        → own_answers key calls answers ≡ own }
{}
