//! Bits of a status report.

ghost use Rattle.std.specs.Prelude.{◌≡◌, ◌+◌};
ghost use Rattle.pdcp_defs.specs.Senders.{is_set, is_reported};
ghost use Rattle.pdcp_entities.specs.Bits.{bits_of};

/// Whether bit `i` of a bitmap is set, counted from 0 at the highest bit of the first octet. None is after the last octet.
fn is_set(bits: &[u8], i: usize) -> bool
    ensures { result ≡ is_set (bits_of bits.now) i }
{
    match bits.get(i / 8) {
        Some(octet) => (octet >> (7 - i % 8)) % 2 == 1,
        None => false,
    }
}

/// Whether a status report confirms this COUNT (TS 38.323, 5.4.2): it is below the first missing one, or its bit is set.
pub(crate) fn is_reported(fmc: u32, bits: &[u8], count: u32) -> bool
    ensures { result ≡ is_reported fmc (bits_of bits.now) count }
{
    count < fmc || fmc < count && is_set(bits, (count - fmc - 1) as usize)
}
