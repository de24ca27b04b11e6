//! The COUNT of a number among those that were given (TS 38.323, 7.1).

ghost use Rattle.std.specs.Prelude.{◌≡◌};
ghost use Rattle.pdcp.specs.Numbers.{space};
ghost use Rattle.pdcp_defs.specs.Counts.{count_below};

use gnb_types::names::SnBits;

/// How many sequence numbers there are.
fn sequence_space(sn: SnBits) -> u32
    ensures { result ≡ space sn }
{
    match sn {
        SnBits::Len12 => 1 << 12,
        SnBits::Len18 => 1 << 18,
    }
}

/// The COUNT with this number (read modulo the sequence space) among the last space of COUNTs below `next`. None where it would be
/// below 0.
#[tactic(auto, unfolding(pdcp_defs::specs::Counts::count_below))]
pub(crate) fn count_below(sn: SnBits, next: u32, number: u32) -> Option<u32>
    ensures { result ≡ count_below sn next number }
{
    let space = sequence_space(sn);
    let number = number % space;
    let low = next % space;
    let high = next - low;
    if number < low {
        Some(high + number)
    } else {
        Some(high.checked_sub(space)? + number)
    }
}
