//! The COUNT of a received number (TS 38.323, 5.2.2).

ghost use Rattle.std.specs.Prelude.{◌≡◌, ℕ, ◌^◌, ◌<◌, IfSome, IfNone};
ghost use Rattle.pdcp.specs.Numbers.{space};
ghost use Rattle.pdcp.specs.Near.{IsNear, IsRaised, IsOutside};

use gnb_types::names::SnBits;

/// The last COUNT that is ever given.
pub const LAST_COUNT: u32 = u32::MAX - 1;

/// How many sequence numbers there are.
fn sequence_space(sn: SnBits) -> u64
    ensures { result ≡ space sn }
{
    match sn {
        SnBits::Len12 => 1 << 12,
        SnBits::Len18 => 1 << 18,
    }
}

/// The COUNT of a number, raised by one sequence space so that it is never below 0. As the standard does, it compares
/// the number with that of RX_DELIV, and takes the high part of RX_DELIV, or the one above or below it.
fn raised_count(sn: SnBits, deliv: u32, number: u32) -> u64
    ensures { IsRaised sn deliv number result }
{
    let space = sequence_space(sn);
    let half = space / 2;
    let number = u64::from(number) % space;
    let low = u64::from(deliv) % space;
    let high = u64::from(deliv) - low;
    if number + half < low {
        high + space + space + number
    } else if low + half <= number {
        high + number
    } else {
        high + space + number
    }
}

/// The one COUNT with this number (read modulo the sequence space) that is at most half a space below `deliv` and
/// less than half a space above it. None exactly where that COUNT would be below 0 or above [`LAST_COUNT`].
pub fn near(sn: SnBits, deliv: u32, number: u32) -> Option<u32>
    ensures found { IfSome result (IsNear sn deliv number) }
    ensures only { (count : ℕ) → IsNear sn deliv number count → result ≡ Some count }
    ensures outside { IfNone result (IsOutside sn deliv number) }
{
    let count = raised_count(sn, deliv, number).checked_sub(sequence_space(sn))?;
    if count <= u64::from(LAST_COUNT) {
        Some(count as u32)
    } else {
        None
    }
}
