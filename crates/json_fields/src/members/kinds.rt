//! Numbers, octets and bits.

ghost use Rattle.std.specs.Prelude.{◌≡◌, IfOk};
ghost use Rattle.serde_json.specs.View.{view};
ghost use Rattle.json_defs.specs.Members.{integer_in, natural_in, octets_in, bits_in, bit_of, read_bits};

use gnb_types::bits::Bits;
use gnb_types::hex::{HexError, hex_bytes};
use gnb_types::octets::{Memory, Octets};
use serde_json::Value as Json;
use std::alloc::Global;

/// A number that is neither a fraction nor too great for 64 bits.
pub fn integer_in(d: &Json) -> Option<i128>
    ensures { result ≡ integer_in (view d.now) }
{
    match d.as_number() {
        Some(number) => number.as_i128(),
        None => None,
    }
}

/// One that is at least 0.
pub fn natural_in(d: &Json) -> Option<u64>
    ensures { result ≡ natural_in (view d.now) }
{
    match d.as_number() {
        Some(number) => number.as_u64(),
        None => None,
    }
}

/// The octets of a text of hexadecimal digits.
pub fn octets_in(alloc: Global, d: &Json) -> Result<Option<Octets>, Memory>
    ensures { IfOk result (λ octets. octets ≡ octets_in (view d.now)) }
{
    let Some(text) = d.as_str() else {
        return Ok(None);
    };
    match hex_bytes(alloc, text.as_bytes()) {
        Ok(octets) => Ok(Some(octets)),
        Err(HexError::NotHex) => Ok(None),
        Err(HexError::Memory) => Err(Memory::told()),
    }
}

fn bit_of(digit: u8) -> Option<bool>
    ensures { result ≡ bit_of digit }
{
    match digit {
        b'0' => Some(false),
        b'1' => Some(true),
        _ => None,
    }
}

#[tactic(auto, using(crate::proofs::members::Words::bits_none, crate::proofs::members::Words::bits_end))]
fn read_bits(alloc: Global, text: &[u8]) -> Result<Option<Bits>, Memory>
    ensures { IfOk result (λ bits. bits ≡ read_bits text.now) }
{
    let mut bits = Bits::new(alloc);
    for digit in text {
        let Some(bit) = bit_of(*digit) else {
            return Ok(None);
        };
        bits.push(bit)?;
    }
    Ok(Some(bits))
}

/// The bits of a text of 0 and 1.
pub fn bits_in(alloc: Global, d: &Json) -> Result<Option<Bits>, Memory>
    ensures { IfOk result (λ bits. bits ≡ bits_in (view d.now)) }
{
    match d.as_str() {
        Some(text) => read_bits(alloc, text.as_bytes()),
        None => Ok(None),
    }
}
