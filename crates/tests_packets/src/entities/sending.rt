//! The sending entity: COUNTs across the wrap of their numbers, and each call once with ample memory.

ghost use Rattle.std.specs.Prelude.{◌≡◌, ◌≤◌, length};
ghost use Rattle.packet_pool.specs.declared.region.TheConstants.{BLOCK};
ghost use Rattle.pdcp_entities.specs.Packets.{AreParked};

use crate::entities::pools::pool_of;
use crate::entities::rows::ROWS;
use gnb_types::names::{BearerId, Dir, SnBits, UeId};
use packet_pool::{Key, Pool};
use pdcp::write_pdu;
use pdcp_entities::{NumberError, OutsideWindow, Tx};
use std::alloc::Global;
use std::marker::Model;
use std::test::Fail;

const DOWN: Key = Key {
    ue: UeId(1),
    bearer: BearerId(1),
    dir: Dir::Dl,
};

/// Puts a packet and numbers it. None where the quota is used up.
fn number(tx: &mut Tx, pool: &mut Pool, packet: &[u8]) -> Option<Result<u32, NumberError>>
    requires sized { length packet.now ≤ BLOCK }
    requires parked { AreParked pool.old tx.old.sender.unconfirmed }
    ensures { AreParked pool.new tx.new.sender.unconfirmed }
{
    let Ok(r) = pool.put(DOWN, packet) else {
        return None;
    };
    match tx.number(pool, r) {
        Ok(count) => Some(Ok(count)),
        Err((r, error)) => {
            pool.take(r);
            Some(Err(error))
        }
    }
}

/// Puts a packet, and holds it under a COUNT that another entity gave it. None where the quota is used up.
fn restore(
    tx: &mut Tx,
    pool: &mut Pool,
    count: u32,
    packet: &[u8],
) -> Option<Result<(), OutsideWindow>>
    requires sized { length packet.now ≤ BLOCK }
    requires parked { AreParked pool.old tx.old.sender.unconfirmed }
    ensures { AreParked pool.new tx.new.sender.unconfirmed }
{
    let Ok(r) = pool.put(DOWN, packet) else {
        return None;
    };
    match tx.restore(pool, count, r) {
        Ok(()) => Some(Ok(())),
        Err((r, error)) => {
            pool.take(r);
            Some(Err(error))
        }
    }
}

/// A sending entity, and the pool in which its packets are parked. Contracts see nothing of it.
#[derive(Drop)]
struct Sending {
    pool: Pool,
    tx: Tx,
}

impl Model for Sending {
    ghost Value = { Unit {0} };

    ghost view = { λ s. record {} };

    ghost invariant = { λ s. AreParked s.pool s.tx.sender.unconfirmed };
}

impl Sending {
    /// With quotas of 8 blocks and of 4 packets.
    fn new(alloc: Global, sn: SnBits, next: u32) -> Result<Sending, Fail> {
        let pool = pool_of(alloc, DOWN, 8)?;
        let tx = Tx::new(alloc, sn, next, 4)?;
        Ok(Sending { pool, tx })
    }

    /// Numbers a packet of one octet.
    fn number(&mut self, octet: u8) -> Option<Result<u32, NumberError>> {
        number(&mut self.tx, &mut self.pool, &[octet])
    }

    /// Holds a packet of one octet under a COUNT.
    fn restore(&mut self, count: u32, octet: u8) -> Option<Result<(), OutsideWindow>> {
        restore(&mut self.tx, &mut self.pool, count, &[octet])
    }

    /// The least COUNT from this one on that nothing confirmed.
    fn unconfirmed(&self, from: u32) -> Option<u32> {
        self.tx.unconfirmed(from).map(|held| held.0)
    }

    /// The COUNT that is given next, and how many blocks are used.
    fn next_and_used(&self) -> (u32, u32) {
        (self.tx.next(), self.pool.used(DOWN))
    }

    /// Whether a call has the answer that goes with it.
    fn answers(&mut self, call: Call) -> bool {
        match call {
            Call::Number(octet, count) => self.number(octet) == Some(count),
            Call::Restore(count, octet, held) => self.restore(count, octet) == Some(held),
            Call::ConfirmTo(number, freed) => self.tx.confirm_to(&mut self.pool, number) == freed,
            Call::ConfirmReport(fmc, bits, freed) => {
                self.tx.confirm_report(&mut self.pool, fmc, bits) == freed
            }
            Call::Unconfirmed(from, count) => self.unconfirmed(from) == count,
            Call::Freeze => {
                self.tx.freeze();
                true
            }
            Call::Resume => {
                self.tx.resume();
                true
            }
            Call::Clear => {
                self.tx.clear(&mut self.pool);
                true
            }
            Call::NextAndUsed(next, used) => self.next_and_used() == (next, used),
        }
    }
}

/// A call, and its answer.
#[derive(Clone, Copy)]
enum Call {
    /// A packet of this octet gets this COUNT, or none.
    Number(u8, Result<u32, NumberError>),
    /// A packet of this octet is held under this COUNT, or isn't.
    Restore(u32, u8, Result<(), OutsideWindow>),
    /// So many packets are given up.
    ConfirmTo(u32, u32),
    ConfirmReport(u32, &'static [u8], u32),
    Unconfirmed(u32, Option<u32>),
    Freeze,
    Resume,
    Clear,
    NextAndUsed(u32, u32),
}

/// Whether an entity that gives this COUNT next gives all answers.
fn answers_all(alloc: Global, sn: SnBits, next: u32, calls: &[Call]) -> Result<bool, Fail> {
    let mut sending = Sending::new(alloc, sn, next)?;
    for call in calls {
        if !sending.answers(*call) {
            return Ok(false);
        }
    }
    Ok(true)
}

#[test]
fn numbers_across_the_wrap(rt: HostRuntime) -> Result<(), Fail> {
    for row in &ROWS {
        let calls = [
            Call::Number(7, Ok(row.counts[0])),
            Call::Number(7, Ok(row.counts[1])),
        ];
        assert!(rt; answers_all(rt.alloc(), row.sn, row.counts[0], &calls)?);
    }
    Ok(())
}

#[test]
fn pdus_across_the_wrap(rt: HostRuntime) -> Result<(), Fail> {
    for row in &ROWS {
        for (count, pdu) in row.counts.iter().zip(row.pdus.iter()) {
            let written = write_pdu(rt.alloc(), row.sn, *count, &[7])?;
            assert_eq!(rt; written.as_slice(), *pdu);
        }
    }
    Ok(())
}

/// The last COUNT is given once.
const LAST: [Call; 3] = [
    Call::Number(7, Ok(4_294_967_294)),
    Call::Number(7, Err(NumberError::CountSpent)),
    Call::NextAndUsed(4_294_967_295, 1),
];

/// A window of four.
const WINDOW: [Call; 9] = [
    Call::Restore(4_094, 1, Ok(())),
    Call::Restore(4_093, 1, Err(OutsideWindow)),
    Call::Number(2, Ok(4_096)),
    Call::Unconfirmed(4_095, Some(4_096)),
    Call::Freeze,
    Call::Number(3, Err(NumberError::Frozen)),
    Call::Resume,
    Call::Number(3, Ok(4_097)),
    Call::Number(4, Err(NumberError::WindowFull)),
];

/// The COUNT of number 8,190 is 4,094, and then that of number 2 is far below; the report is of all below 4,096, and of 4,097.
const CONFIRMED: [Call; 12] = [
    Call::Number(7, Ok(4_094)),
    Call::Number(7, Ok(4_095)),
    Call::Number(7, Ok(4_096)),
    Call::Number(7, Ok(4_097)),
    Call::ConfirmTo(8_190, 1),
    Call::ConfirmTo(2, 0),
    Call::ConfirmReport(4_096, &[0x80], 2),
    Call::Unconfirmed(0, Some(4_096)),
    Call::NextAndUsed(4_098, 1),
    Call::Clear,
    Call::Unconfirmed(0, None),
    Call::NextAndUsed(4_098, 0),
];

#[test]
fn each_call(rt: HostRuntime) -> Result<(), Fail> {
    let alloc = rt.alloc();
    assert!(rt; answers_all(alloc, SnBits::Len18, 4_294_967_294, &LAST)?);
    assert!(rt; answers_all(alloc, SnBits::Len12, 4_096, &WINDOW)?);
    assert!(rt; answers_all(alloc, SnBits::Len12, 4_094, &CONFIRMED)?);
    Ok(())
}
