//! How many bits or octets a number takes.

ghost use Rattle.std.specs.Prelude.{◌≡◌, ◌≤◌};
ghost use Rattle.aper_defs.specs.Numbers.{bits_for, octets_for};

/// The fewest bits of a number below 256.
#[tactic(auto, using(crate::proofs::CountLemmas::bits_first, crate::proofs::CountLemmas::bits_here, crate::proofs::CountLemmas::bits_turn, crate::proofs::CountLemmas::bits_last))]
pub fn bits_for(number: u64) -> u32
    ensures count { result ≡ bits_for number }
    ensures most { result ≤ 8 }
{
    for count in 0..8 {
        if number >> count == 0 {
            return count;
        }
    }
    8
}

/// The fewest octets of a number, at least one.
#[tactic(auto, using(crate::proofs::CountLemmas::octets_first, crate::proofs::CountLemmas::octets_here, crate::proofs::CountLemmas::octets_turn, crate::proofs::CountLemmas::octets_last))]
pub fn octets_for(number: u64) -> u32
    ensures count { result ≡ octets_for number }
    ensures most { result ≤ 8 }
{
    for count in 1..8 {
        if number >> (8 * count) == 0 {
            return count;
        }
    }
    8
}
