//! Bits out of octets.

ghost use Rattle.std.specs.Prelude.{◌≡◌, ◌*◌, ◌%◌, ◌<◌, ◌≤◌, ◌^◌, length, take, MatchResult};
ghost use Rattle.bits_core.specs.Bits.{number_of};

use crate::low::low_bits;
use std::marker::Model;

/// Why bits aren't taken. The reader is then unchanged.
#[derive(Clone, Copy, Debug, PartialEq, Eq)]
pub enum BitError {
    /// Fewer bits are left.
    Short,
    /// A pad bit is 1.
    Padding,
}

/// Takes bits one after another from octets, the highest bit of each first.
#[derive(Drop)]
pub struct BitReader<'a> {
    octets: &'a [u8],
    place: u64,
}

impl<'a> Model for BitReader<'a> {
    ghost use Rattle.bits_core.specs.Reading.{Reading};

    ghost Value = { Reading };

    ghost use Rattle.std.specs.Prelude.{◌<◌, ◌≤◌, ◌*◌, ◌^◌, length};

    ghost view = { λ r. record { octets = r.octets.now; place = r.place } };

    ghost invariant = { λ r. (length r.octets.now < 2 ^ 61) × (r.place ≤ 8 * length r.octets.now) };
}

impl<'a> BitReader<'a> {
    ghost use Rattle.bits_core.specs.Reading.{Reading, bits_left, moved, TakesBits, SkipsPad, TakesRun, LacksOctets};

    /// A reader at the first bit of these octets.
    pub fn new(octets: &'a [u8]) -> BitReader<'a>
        requires { length octets.now < 2 ^ 61 }
        ensures { result ≡ record { octets = octets.now; place = 0 } }
    {
        BitReader { octets, place: 0 }
    }

    /// A reader at the bit with this number, from 0.
    pub fn at(octets: &'a [u8], place: u64) -> BitReader<'a>
        requires length { length octets.now < 2 ^ 61 }
        requires place { place ≤ 8 * length octets.now }
        ensures { result ≡ record { octets = octets.now; place = place } }
    {
        BitReader { octets, place }
    }

    /// The number of the next bit, from 0. It is never past the last one.
    pub fn place(&self) -> u64
        ensures place { result ≡ self.now.place }
        ensures within { result ≤ 8 * length self.now.octets }
        ensures short { length self.now.octets < 2 ^ 61 }
    {
        self.place
    }

    /// The next bits as a number. It takes no memory.
    pub fn take_bits(&mut self, width: u32) -> Result<u64, BitError>
        requires { width ≤ 64 }
        ensures { TakesBits self.old self.new width result }
    {
        if 8 * self.octets.len() as u64 - self.place < u64::from(width) {
            return Err(BitError::Short);
        }
        let mut number = 0;
        let mut left = width;
        while left > 0 {
            let (part, count) = self.take_some(left);
            number = (number << count) + part;
            left -= count;
        }
        Ok(number)
    }

    /// Goes on to the next octet, over bits that are all 0. They are always there, since octets are whole, so that it
    /// never answers `Short`.
    pub fn skip_pad(&mut self) -> Result<(), BitError>
        ensures { SkipsPad self.old self.new result }
    {
        let used = (self.place % 8) as u32;
        if used == 0 {
            return Ok(());
        }
        let octet = self.octets[(self.place / 8) as usize];
        if low_bits(u64::from(octet), 8 - used) != 0 {
            return Err(BitError::Padding);
        }
        self.place += u64::from(8 - used);
        Ok(())
    }

    /// The next octets as they stand, from the beginning of one on. It takes no memory.
    pub fn take_octets(&mut self, count: usize) -> Result<&'a [u8], BitError>
        requires { self.old.place % 8 ≡ 0 }
        ensures { MatchResult result
            (λ octets. TakesRun self.old self.new count octets.now) (λ e. LacksOctets self.old self.new count e) }
    {
        let whole = self.octets;
        let start = (self.place / 8) as usize;
        if whole.len() - start < count {
            return Err(BitError::Short);
        }
        self.place += 8 * count as u64;
        Ok(&whole[start..start + count])
    }

    /// The next bits of one octet as a number, at most so many, and how many they are.
    fn take_some(&mut self, most: u32) -> (u64, u32)
        requires some { 0 < most }
        requires most { most ≤ length (bits_left self.old) }
        ensures some { 0 < result.1 }
        ensures most { result.1 ≤ most }
        ensures octet { result.1 ≤ 8 }
        ensures small { result.0 < 2 ^ result.1 }
        ensures value { result.0 ≡ number_of (take result.1 (bits_left self.old)) }
        ensures moves { self.new ≡ moved self.old result.1 }
    {
        let octet = self.octets[(self.place / 8) as usize];
        let free = 8 - (self.place % 8) as u32;
        let count = most.min(free);
        self.place += u64::from(count);
        (low_bits(u64::from(octet) >> (free - count), count), count)
    }
}
