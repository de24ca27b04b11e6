//! Which parts are there.

ghost use Rattle.std.specs.Prelude.{◌≡◌, [], ◌∷◌, MatchOption};

use gnb_types::bits::Bits;
use std::marker::Model;

/// Which of the parts that still come are there. Contracts see the list.
#[derive(Drop)]
pub struct Flags {
    bits: Bits,
    /// The number of the next one.
    at: usize,
}

impl Model for Flags {
    ghost use Rattle.std.specs.Prelude.{List, Bool, ◌≤◌, drop, length};

    ghost Value = { List Bool };

    ghost view = { λ f. drop f.at f.bits };

    ghost invariant = { λ f. f.at ≤ length f.bits };
}

impl Flags {
    pub fn new(bits: Bits) -> Flags
        ensures { result ≡ bits }
    {
        Flags { bits, at: 0 }
    }

    /// Whether the next part is there.
    #[inline(always)]
    pub fn next(&mut self) -> Option<bool>
        ensures { MatchOption result ((self.old ≡ []) × (self.new ≡ [])) (λ flag. self.old ≡ flag ∷ self.new) }
    {
        let flag = *self.bits.as_slice().get(self.at)?;
        self.at += 1;
        Some(flag)
    }
}
