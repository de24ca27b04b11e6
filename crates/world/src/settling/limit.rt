//! How many rounds there are at most.

ghost use Rattle.std.specs.Prelude.{◌≡◌, ◌-◌, ◌+◌, ◌*◌, IfOk};
ghost use Rattle.run_defs.specs.Settling.{undelivered, round_limit};
ghost use Rattle.run_defs.specs.States.{entity};
ghost use Rattle.gnb_types.specs.declared.names.Dir.TheVariants.{Dl, Ul};
ghost use Rattle.run_defs.specs.UnitRuns.{Records};
ghost use Rattle.run_links.specs.Networks.{OctetWorld, OctetCore, state_of};
ghost use Rattle.world.specs.settling.Bearers.{undelivered_of};

use crate::turns::attached::attached_bearers;
use gnb_types::items::Memory;
use gnb_types::keys::EntityKey;
use gnb_types::names::{BearerId, Dir, UeId};
use run_links::network::Network;
use std::alloc::Global;

/// How many packets of a bearer and direction were offered and aren't delivered.
fn undelivered(network: &Network, key: EntityKey) -> u64
    ensures { (world : OctetWorld) (units : Records) (core : OctetCore)
        → result ≡ undelivered world (state_of units core network.now) key }
{
    let book = network.book(key);
    book.offered.saturating_sub(book.delivered)
}

/// The same of these bearers, in both directions.
fn all_undelivered(network: &Network, bearers: &[(UeId, BearerId)]) -> Result<u64, Memory>
    ensures { IfOk result (λ n. (world : OctetWorld) (units : Records) (core : OctetCore)
        → n ≡ undelivered_of world (state_of units core network.now) bearers.now) }
{
    let mut packets = 0u64;
    for (ue, bearer) in bearers {
        packets = add_bearer(network, *ue, *bearer, packets)?;
    }
    Ok(packets)
}

/// The sum. So many packets don't fit the memory, where it doesn't fit its type.
fn add(these: u64, those: u64) -> Result<u64, Memory>
    ensures { IfOk result (λ n. n ≡ these + those) }
{
    these.checked_add(those).ok_or(Memory::too_many())
}

/// Those of a bearer beside these.
fn add_bearer(network: &Network, ue: UeId, bearer: BearerId, packets: u64) -> Result<u64, Memory>
    ensures { IfOk result (λ n. (world : OctetWorld) (units : Records) (core : OctetCore)
        → n ≡ packets + undelivered world (state_of units core network.now) (entity ue bearer Dl)
        + undelivered world (state_of units core network.now) (entity ue bearer Ul)) }
{
    let dir = Dir::Dl;
    let downlink = undelivered(network, EntityKey { ue, bearer, dir });
    let dir = Dir::Ul;
    let uplink = undelivered(network, EntityKey { ue, bearer, dir });
    let packets = add(packets, downlink)?;
    add(packets, uplink)
}

/// Ten rounds for each of these, and a hundred more.
fn rounds_for(messages: u32, packets: u64) -> Result<u64, Memory>
    ensures { IfOk result (λ n. n ≡ 100 + 10 * (messages + packets)) }
{
    let all = add(u64::from(messages), packets)?;
    let rounds = all.checked_mul(10).ok_or(Memory::too_many())?;
    add(rounds, 100)
}

/// How many rounds there are at most: ten for each message in flight and each packet that isn't delivered, and a hundred more.
pub fn round_limit(alloc: Global, network: &Network) -> Result<u64, Memory>
    ensures { IfOk result (λ n. (world : OctetWorld) (units : Records) (core : OctetCore)
        → n ≡ round_limit world (state_of units core network.now)) }
{
    let bearers = attached_bearers(alloc, network)?;
    let packets = all_undelivered(network, bearers.as_slice())?;
    let messages = network.bag.in_flight(None);
    rounds_for(messages, packets)
}
