//! Laws of aligned PER. Each function does nothing: its contract is the law.
#![tactic(auto)]

pub mod feeding;
pub mod pieces;
pub mod refusals;
pub mod rows;
pub mod wrong;

ghost use Rattle.std.specs.Prelude.{◌≡◌, ℕ, ◌<◌, ◌≤◌, ◌++◌, List, [], All, Ok};
ghost use Rattle.aper_defs.specs.Trees.{Tree};
ghost use Rattle.aper_defs.specs.Values.{Value};
ghost use Rattle.aper_defs.specs.Bits.{octet_count};
ghost use Rattle.aper_defs.specs.Membership.{Has};
ghost use Rattle.aper_defs.specs.Bounds.{IsBounded};
ghost use Rattle.aper_defs.specs.Spelling.{Spells, spelling_limit, whole_layout};
ghost use Rattle.aper_defs.specs.Reading.{decoded};
ghost use Rattle.aper_defs.specs.octet_defs.Octets.{spelled_as};

/// A value whose layout has at most 131,072 octets has one spelling.
pub fn a_value_has_one_spelling()
    ensures some { (t : Tree) (v : Value) → Has [] t v
        → octet_count (whole_layout t v) ≤ spelling_limit
        → (octets : List ℕ) × All (λ o. o < 256) octets × Spells t v octets }
    ensures one { (t : Tree) (v : Value) (a b : List ℕ)
        → All (λ o. o < 256) a → All (λ o. o < 256) b
        → Spells t v a → Spells t v b → a ≡ b }
{}

/// The octets of a value, as they are computed, are its one spelling; and there are none where nothing spells it.
pub fn the_octets_of_a_value()
    ensures spelling { (t : Tree) (v : Value) (octets : List ℕ) → IsBounded t
        → All (λ o. o < 256) octets → Spells t v octets → octets ≡ spelled_as t v }
    ensures none { (t : Tree) (v : Value) → IsBounded t
        → ((octets : List ℕ) → Spells t v octets → ⊥) → [] ≡ spelled_as t v }
{}

/// A spelling has one value, and no spelling of a type within the profile's bounds is a proper prefix of another of that type.
pub fn a_spelling_has_one_value()
    ensures value { (t : Tree) (v w : Value) (octets : List ℕ) → IsBounded t
        → Spells t v octets → Spells t w octets → v ≡ w }
    ensures whole { (t : Tree) (v w : Value) (octets more : List ℕ) → IsBounded t
        → Spells t v octets → Spells t w (octets ++ more) → more ≡ [] }
{}

/// The questions of a type find in a spelling the value that it spells.
pub fn a_spelling_is_read_as_its_value()
    ensures { (t : Tree) (v : Value) (octets : List ℕ) → IsBounded t
        → Spells t v octets → decoded t octets ≡ Ok v }
{}

/// Octets in which the questions of a type find a value, and after which nothing is left, spell that value.
pub fn what_is_read_is_spelled()
    ensures { (t : Tree) (v : Value) (octets : List ℕ) → IsBounded t
        → decoded t octets ≡ Ok v → Spells t v octets }
{}
