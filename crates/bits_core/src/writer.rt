//! Bits into octets.

ghost use Rattle.std.specs.Prelude.{◌≡◌, ◌%◌, ◌<◌, ◌≤◌, ◌^◌, ◌++◌, [], false, length, OnOk, OnErr, vec_len};
ghost use Rattle.std.specs.Vec.{vec_capacity};
ghost use Rattle.bits_core.specs.Bits.{bits_of, octet_bits, zeros, pad_of};

use crate::low::low_bits;
use gnb_types::octets::{Memory, Octets};
use std::alloc::Global;
use std::marker::Model;

/// Puts bits one after another into octets, the highest bit of each first.
///
/// Behind the whole `octets` stands a begun one, whose first `used` bits are the number `last`. The room for it is made
/// before it begins, so that `finish` takes no memory.
#[derive(Drop)]
pub struct BitWriter {
    octets: Vec<u8>,
    last: u32,
    used: u32,
    failed: bool,
}

impl Model for BitWriter {
    ghost use Rattle.bits_core.specs.Writing.{Written};

    ghost Value = { Written };

    ghost use Rattle.bits_core.specs.Writing.{written_of, HasRoom};

    ghost view = { written_of };

    ghost invariant = { HasRoom };
}

impl BitWriter {
    ghost use Rattle.bits_core.specs.Writing.{Puts, PutsSome};

    /// A writer of no bits.
    pub fn new(alloc: Global) -> BitWriter
        ensures { result ≡ record { bits = []; failed = false } }
    {
        BitWriter {
            octets: Vec::new(alloc),
            last: 0,
            used: 0,
            failed: false,
        }
    }

    /// Puts a value in so many bits. Once it is out of memory, each call answers that.
    pub fn put_bits(&mut self, value: u64, width: u32) -> Result<(), Memory>
        requires width { width ≤ 64 }
        requires fits { value < 2 ^ width }
        ensures { Puts self.old self.new (bits_of width value) result }
    {
        if self.failed {
            return Err(Memory::told());
        }
        let mut left = width;
        while left > 0 {
            left = self.put_some(value, left)?;
        }
        Ok(())
    }

    /// Puts whole octets where the bits so far are whole octets too.
    pub fn put_octets(&mut self, octets: &[u8]) -> Result<(), Memory>
        requires { length self.old.bits % 8 ≡ 0 }
        ensures { Puts self.old self.new (octet_bits octets.now) result }
    {
        if self.failed {
            return Err(Memory::told());
        }
        if let Err(error) = self.octets.extend_from_slice(octets) {
            self.failed = true;
            return Err(Memory::from(error));
        }
        Ok(())
    }

    /// Puts zero bits up to a multiple of 8.
    pub fn align(&mut self) -> Result<(), Memory>
        ensures { Puts self.old self.new (zeros (pad_of (length self.old.bits))) result }
    {
        let pad = (8 - self.used) % 8;
        self.put_bits(0, pad)
    }

    /// The octets, the last one filled up by zero bits. No earlier call ran out of memory.
    pub fn finish(self) -> Octets
        requires { self.failed ≡ false }
        ensures { octet_bits result ≡ self.bits ++ zeros (pad_of (length self.bits)) }
    {
        let mut octets = self.octets;
        if self.used == 0 {
            return Octets::from_vec(octets);
        }
        octets.push((self.last << (8 - self.used)) as u8).unwrap();
        Octets::from_vec(octets)
    }

    /// Puts as many of the lowest `left` bits of a value as the begun octet has room for, and answers how many are left.
    fn put_some(&mut self, value: u64, left: u32) -> Result<u32, Memory>
        requires some { 0 < left }
        requires most { left ≤ 64 }
        requires going { self.old.failed ≡ false }
        ensures { PutsSome self.old self.new value left result }
    {
        if let Err(error) = make_room(&mut self.octets, self.used) {
            self.failed = true;
            return Err(error);
        }
        let count = left.min(8 - self.used);
        let rest = left - count;
        self.last = (self.last << count) + low_bits(value >> rest, count) as u32;
        self.used += count;
        if self.used == 8 {
            self.octets.push(self.last as u8).unwrap();
            self.last = 0;
            self.used = 0;
        }
        Ok(rest)
    }
}

/// Makes room for an octet that is about to begin; a begun one has it.
fn make_room(octets: &mut Vec<u8>, used: u32) -> Result<(), Memory>
    requires { 0 < used → vec_len octets.old < vec_capacity octets.old }
    ensures items { octets.new.items ≡ octets.old.items }
    ensures len { vec_len octets.new ≡ vec_len octets.old }
    ensures ok { OnOk result (vec_len octets.new < vec_capacity octets.new) }
    ensures err { OnErr result (used ≡ 0) }
{
    if used == 0 {
        octets.reserve(1)?;
    }
    Ok(())
}
