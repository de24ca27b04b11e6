//! The receiving entity: COUNTs across the wrap of their numbers, and each call once with ample memory.

ghost use Rattle.std.specs.Prelude.{◌≡◌, ◌≤◌, length};
ghost use Rattle.packet_pool.specs.declared.region.TheConstants.{BLOCK};
ghost use Rattle.pdcp_entities.specs.Packets.{AreParked};

use crate::entities::pools::pool_of;
use crate::entities::rows::ROWS;
use gnb_types::names::{BearerId, Dir, SnBits, UeId};
use packet_pool::{Key, Pool};
use pdcp_entities::{Ahead, Rx, Taken};
use std::alloc::Global;
use std::marker::Model;
use std::test::Fail;

const UP: Key = Key {
    ue: UeId(1),
    bearer: BearerId(1),
    dir: Dir::Ul,
};

/// Takes a packet, where no block is used. None where one is.
fn take(rx: &mut Rx, pool: &mut Pool, number: u32, packet: &[u8]) -> Option<Result<Taken, Ahead>>
    requires sized { length packet.now ≤ BLOCK }
    requires parked { AreParked pool.old rx.old.receiver.stored }
    requires quota { rx.old.quota ≤ 4 }
    ensures parked { AreParked pool.new rx.new.receiver.stored }
    ensures quota { rx.new.quota ≡ rx.old.quota }
{
    if pool.quota(UP) < 4 || pool.used(UP) != 0 {
        return None;
    }
    Some(rx.take(pool, UP, number, packet))
}

/// Hands a packet up: its COUNT, and whether these are its octets.
fn hand_up(rx: &mut Rx, pool: &mut Pool, packet: &[u8]) -> Option<(u32, bool)>
    requires { AreParked pool.old rx.old.receiver.stored }
    ensures parked { AreParked pool.new rx.new.receiver.stored }
    ensures quota { rx.new.quota ≡ rx.old.quota }
{
    let (count, r) = rx.next(pool)?;
    let same = pool.bytes(&r) == packet;
    pool.take(r);
    Some((count, same))
}

/// A receiving entity, and the pool in which its packets are parked. Contracts see nothing of it.
#[derive(Drop)]
struct Receiving {
    pool: Pool,
    rx: Rx,
}

impl Model for Receiving {
    ghost Value = { Unit {0} };

    ghost view = { λ r. record {} };

    ghost invariant = { λ r. AreParked r.pool r.rx.receiver.stored × (r.rx.quota ≤ 4) };
}

impl Receiving {
    /// With quotas of 4 blocks and of 4 packets.
    fn new(alloc: Global, sn: SnBits, deliv: u32) -> Result<Receiving, Fail> {
        let pool = pool_of(alloc, UP, 4)?;
        let rx = Rx::new(alloc, sn, deliv, 4)?;
        Ok(Receiving { pool, rx })
    }

    /// Takes a packet of one octet, where no block is used.
    fn take(&mut self, number: u32, octet: u8) -> Option<Result<Taken, Ahead>> {
        take(&mut self.rx, &mut self.pool, number, &[octet])
    }

    /// The COUNT of the packet that is handed up, and whether it is this octet.
    fn hand_up(&mut self, octet: u8) -> Option<(u32, bool)> {
        hand_up(&mut self.rx, &mut self.pool, &[octet])
    }

    /// The least COUNT from this one on that is stored.
    fn stored(&self, from: u32) -> Option<u32> {
        self.rx.stored(from).map(|held| held.0)
    }

    /// Whether the report of what was received is this one.
    fn reports(&self, alloc: Global, fmc: u32, bits: &[bool]) -> bool {
        let Ok((first, received)) = self.rx.report(alloc) else {
            return false;
        };
        first == fmc && received.as_slice() == bits
    }

    /// The COUNT that is awaited, and how many blocks are used.
    fn deliv_and_used(&self) -> (u32, u32) {
        (self.rx.deliv(), self.pool.used(UP))
    }

    /// Whether a call has the answer that goes with it.
    fn answers(&mut self, alloc: Global, call: Call) -> bool {
        match call {
            Call::Take(number, octet, taken) => self.take(number, octet) == Some(taken),
            Call::HandUp(octet, count) => self.hand_up(octet) == count.map(|count| (count, true)),
            Call::Stored(from, count) => self.stored(from) == count,
            Call::Report(fmc, bits) => self.reports(alloc, fmc, bits),
            Call::Freeze => {
                self.rx.freeze();
                true
            }
            Call::Resume => {
                self.rx.resume();
                true
            }
            Call::Clear => {
                self.rx.clear(&mut self.pool);
                true
            }
            Call::DelivAndUsed(deliv, used) => self.deliv_and_used() == (deliv, used),
        }
    }
}

/// A call, and its answer.
#[derive(Clone, Copy)]
enum Call {
    /// A packet of this octet with this number.
    Take(u32, u8, Result<Taken, Ahead>),
    /// This octet goes up with this COUNT, or nothing does.
    HandUp(u8, Option<u32>),
    Stored(u32, Option<u32>),
    Report(u32, &'static [bool]),
    Freeze,
    Resume,
    Clear,
    DelivAndUsed(u32, u32),
}

/// Whether an entity that awaits this COUNT gives all answers.
fn answers_all(alloc: Global, sn: SnBits, deliv: u32, calls: &[Call]) -> Result<bool, Fail> {
    let mut receiving = Receiving::new(alloc, sn, deliv)?;
    for call in calls {
        if !receiving.answers(alloc, *call) {
            return Ok(false);
        }
    }
    Ok(true)
}

/// What becomes of a packet with this COUNT.
const fn taken(count: u32, stored: bool) -> Result<Taken, Ahead> {
    Ok(Taken {
        count: Some(count),
        stored,
    })
}

#[test]
fn counts_across_the_wrap(rt: HostRuntime) -> Result<(), Fail> {
    for row in &ROWS {
        let [first, second] = row.counts;
        let calls = [
            Call::Take(row.numbers[0], 7, taken(first, true)),
            Call::HandUp(7, Some(first)),
            Call::Take(row.numbers[1], 8, taken(second, true)),
            Call::HandUp(8, Some(second)),
            Call::Take(row.numbers[0], 7, taken(first, false)),
        ];
        assert!(rt; answers_all(rt.alloc(), row.sn, first, &calls)?);
    }
    Ok(())
}

/// A packet that waits for the one before it: its COUNT is 4,097.
#[rattlefmt::skip]
const WAITS: [Call; 7] = [
    Call::Take(1, 7, Ok(Taken { count: Some(4_097), stored: true })),
    Call::HandUp(7, None),
    Call::Stored(0, Some(4_097)),
    Call::Stored(4_098, None),
    Call::Report(4_095, &[false, true]),
    Call::Clear,
    Call::DelivAndUsed(4_095, 0),
];

/// Four COUNTs from 0 on have room; that of the last number would be below 0.
#[rattlefmt::skip]
const NOT_STORED: [Call; 3] = [
    Call::Take(4, 7, Err(Ahead)),
    Call::Take(4_095, 7, Ok(Taken { count: None, stored: false })),
    Call::DelivAndUsed(0, 0),
];

/// While it is frozen nothing goes up.
#[rattlefmt::skip]
const FROZEN: [Call; 6] = [
    Call::Freeze,
    Call::Take(4_095, 7, Ok(Taken { count: Some(4_095), stored: true })),
    Call::HandUp(7, None),
    Call::Resume,
    Call::HandUp(7, Some(4_095)),
    Call::DelivAndUsed(4_096, 0),
];

#[test]
fn each_call(rt: HostRuntime) -> Result<(), Fail> {
    let alloc = rt.alloc();
    assert!(rt; answers_all(alloc, SnBits::Len12, 4_095, &WAITS)?);
    assert!(rt; answers_all(alloc, SnBits::Len12, 0, &NOT_STORED)?);
    assert!(rt; answers_all(alloc, SnBits::Len12, 4_095, &FROZEN)?);
    Ok(())
}
