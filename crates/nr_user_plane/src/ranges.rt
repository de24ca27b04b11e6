//! Ranges of NR-U numbers that were lost.

ghost use Rattle.std.specs.Prelude.{◌≡◌, ◌==◌, ◌<◌, ℕ, List, [], ◌∷◌, ◌++◌, length};

use std::marker::Model;

/// At most seven ranges of NR-U numbers, each from its start to its end, both included. Contracts see the list of pairs.
#[derive(Drop)]
pub struct Ranges {
    count: u8,
    pairs: [(u32, u32); 7],
}

impl Model for Ranges {
    ghost use Rattle.std.specs.Prelude.{◌≡◌, ◌≤◌, ℕ, List, take, length};

    ghost Value = { List (ℕ × ℕ) };

    ghost view = { λ r. take r.count r.pairs };

    ghost invariant = { λ r. r.count ≤ 7 };
}

impl Ranges {
    /// The most that a frame can report.
    pub const MAX: usize = 7;

    /// No ranges.
    pub fn new() -> Ranges
        ensures { result ≡ [] }
    {
        Ranges {
            count: 0,
            pairs: [(0, 0); 7],
        }
    }

    pub fn as_slice(&self) -> &[(u32, u32)]
        ensures { result.now ≡ self.now }
    {
        &self.pairs[..usize::from(self.count)]
    }

    pub fn len(&self) -> usize
        ensures { result ≡ length self.now }
    {
        self.as_slice().len()
    }

    pub fn is_empty(&self) -> bool
        ensures { result ≡ (length self.now == 0) }
    {
        self.as_slice().is_empty()
    }

    /// Puts a range at the end.
    pub fn push(&mut self, start: u32, end: u32)
        requires { length self.old < 7 }
        ensures { self.new ≡ self.old ++ (start, end) ∷ [] }
    {
        self.pairs[usize::from(self.count)] = (start, end);
        self.count += 1;
    }
}

impl PartialEq for Ranges {
    ghost use Rattle.std.specs.Prelude.{nat_eq};
    ghost use Rattle.std.specs.Ordering.{eq_of_both, on};
    ghost use Rattle.std.specs.Cmp.Lexicographic.{pointwise};
    ghost use Rattle.std.specs.Cmp.Rules.{comparing};
    ghost use Rattle.std.proofs.Common.{rules};

    ghost eq = { pointwise (eq_of_both (on (λ p. p.0) nat_eq) (on (λ p. p.1) nat_eq)) };

    ghost laws = { Prim.search (comparing, rules) };

    fn eq(&self, other: &Ranges) -> bool {
        self.as_slice() == other.as_slice()
    }
}

impl Eq for Ranges {
    ghost use Rattle.std.specs.Cmp.Rules.{comparing};
    ghost use Rattle.std.proofs.Common.{rules};

    ghost laws = { Prim.search (comparing, rules) };
}
