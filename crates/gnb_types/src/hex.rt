//! Bytes as hexadecimal text.

ghost use Rattle.std.specs.Prelude.{◌≡◌, ◌<◌, ◌↔◌, ℕ, List, IfOk, All};
ghost use Rattle.gnb_types.specs.Hex.{hex_digit, hex_of, digit_of, byte_of, read_hex, IsHexOf, GivesHex};
ghost use Rattle.gnb_types.specs.declared.hex.HexError.TheVariants.{Memory as OutOfMemory};

use crate::octets::{Memory, Octets};
use std::alloc::Global;

/// Why a text isn't read as bytes.
#[derive(Clone, Copy, Debug, PartialEq, Eq)]
pub enum HexError {
    /// An odd length, or a character that is no hexadecimal digit.
    NotHex,
    /// Out of memory.
    Memory,
}

impl From<Memory> for HexError {
    ghost from_gives = { λ _ e. e ≡ OutOfMemory };

    fn from(_error: Memory) -> HexError {
        HexError::Memory
    }
}

fn digit(n: u8) -> u8
    requires { n < 16 }
    ensures { result ≡ hex_digit n }
{
    if n < 10 { b'0' + n } else { b'A' - 10 + n }
}

fn number(c: u8) -> Option<u8>
    ensures { result ≡ digit_of c }
{
    match c {
        b'0'..=b'9' => Some(c - b'0'),
        b'A'..=b'F' => Some(c - b'A' + 10),
        b'a'..=b'f' => Some(c - b'a' + 10),
        _ => None,
    }
}

fn byte(high: u8, low: u8) -> Option<u8>
    ensures { result ≡ byte_of (digit_of high) (digit_of low) }
{
    let high = number(high)?;
    let low = number(low)?;
    Some(16 * high + low)
}

/// The text of these bytes: two digits for each, the high one first, in upper case.
pub fn hex_text(alloc: Global, bytes: &[u8]) -> Result<Octets, Memory>
    ensures { IfOk result (λ text. text ≡ hex_of bytes.now) }
{
    let mut text = Octets::with_capacity(alloc, bytes.len().saturating_mul(2))?;
    for byte in bytes {
        text.push(digit(*byte / 16))?;
        text.push(digit(*byte % 16))?;
    }
    Ok(text)
}

fn bytes_of(alloc: Global, text: &[u8]) -> Result<Octets, HexError>
    ensures { GivesHex result (read_hex text.now) }
{
    if text.len() % 2 != 0 {
        return Err(HexError::NotHex);
    }
    let mut bytes = Octets::with_capacity(alloc, text.len() / 2)?;
    for i in 0..text.len() / 2 {
        let Some(byte) = byte(text[2 * i], text[2 * i + 1]) else {
            return Err(HexError::NotHex);
        };
        bytes.push(byte)?;
    }
    Ok(bytes)
}

/// The bytes that this text stands for, in upper or lower case.
pub fn hex_bytes(alloc: Global, text: &[u8]) -> Result<Octets, HexError>
    ensures exact { GivesHex result (read_hex text.now) }
    // What is read stands in the text, and a text that stands for bytes is read.
    ensures found { IfOk result (IsHexOf text.now) }
    ensures only { (bytes : List ℕ) → IsHexOf text.now bytes → GivesHex result (Some bytes) }
{
    bytes_of(alloc, text)
}

/// Texts and bytes belong together one to one, but for upper and lower case.
pub fn hex_is_exact()
    ensures read { (text bytes : List ℕ) → (read_hex text ≡ Some bytes) ↔ IsHexOf text bytes }
    ensures one { (text a b : List ℕ) → IsHexOf text a → IsHexOf text b → a ≡ b }
    ensures written { (bytes : List ℕ) → All (λ b. b < 256) bytes → IsHexOf (hex_of bytes) bytes }
{}
