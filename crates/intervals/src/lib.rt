//! Laws of intervals of a function, and of lists whose places have no gap. Each function does nothing: its contract is the
//! law.
#![tactic(auto)]

ghost use Rattle.std.specs.Prelude.{◌≡◌, ℕ, ◌+◌, ◌-◌, ◌≤◌, max, List, [], ◌∷◌, ◌++◌, length};
ghost use Rattle.intervals.specs.Intervals.{upto, HasNoGap, reach};

/// An interval has the length of its ends' distance, and two that meet are one.
pub fn intervals_join()
    ensures length_is { (f : ℕ → List ℕ) (a b : ℕ) → length (upto f a b) ≡ b - a }
    ensures joined { (f : ℕ → List ℕ) (a b c : ℕ) → a ≤ b → b ≤ c
        → upto f a b ++ upto f b c ≡ upto f a c }
{}

/// Two lists without a gap, the second from where the first reaches, are one; and an interval has no gap from any place
/// that is not below its first.
pub fn without_a_gap()
    ensures joined { (n : ℕ) (xs ys : List (ℕ × List ℕ)) → HasNoGap n xs
        → HasNoGap (reach n xs) ys → HasNoGap n (xs ++ ys) }
    ensures reached { (n : ℕ) (xs ys : List (ℕ × List ℕ))
        → reach n (xs ++ ys) ≡ reach (reach n xs) ys }
    ensures interval { (p : ℕ → List ℕ) (n a b : ℕ) → a ≤ n
        → HasNoGap n (upto (λ i. (i, p i)) a b) }
    ensures interval_reached { (p : ℕ → List ℕ) (n a b : ℕ) → a ≤ n
        → reach n (upto (λ i. (i, p i)) a b) ≡ max n b }
{}
