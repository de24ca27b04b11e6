//! The COUNT of a number among those that were given (TS 38.323, 7.1).

ghost use Rattle.std.specs.Prelude.{◌≡◌, ◌*◌};
ghost use Rattle.pdcp.specs.Numbers.{space, half};
ghost use Rattle.pdcp_defs.specs.Counts.{count_below};

use gnb_types::names::SnBits;

/// Half of the sequence space.
pub(crate) fn half_space(sn: SnBits) -> u32
    ensures half { result ≡ half sn }
    ensures space { 2 * result ≡ space sn }
{
    match sn {
        SnBits::Len12 => 1 << 11,
        SnBits::Len18 => 1 << 17,
    }
}

/// The COUNT with this number among the last space of COUNTs below `next`. None where it would be below 0.
#[tactic(auto, unfolding(pdcp_defs::specs::Counts::count_below))]
pub(crate) fn count_below(sn: SnBits, next: u32, number: u32) -> Option<u32>
    ensures { result ≡ count_below sn next number }
{
    let space = 2 * half_space(sn);
    let number = number % space;
    let low = next % space;
    let high = next - low;
    if number < low {
        Some(high + number)
    } else {
        Some(high.checked_sub(space)? + number)
    }
}
