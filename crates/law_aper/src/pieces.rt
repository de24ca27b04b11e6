//! Laws of octets that come in pieces. Each function does nothing: its contract is the law.

ghost use Rattle.std.specs.Prelude.{◌≡◌, ℕ, ◌*◌, ◌++◌, length, List, [], Ok, Err};
ghost use Rattle.aper_defs.specs.declared.reason.Reason.TheVariants as reasons;
ghost use Rattle.aper_defs.specs.Trees.{Tree};
ghost use Rattle.aper_defs.specs.Values.{Value};
ghost use Rattle.aper_defs.specs.Bounds.{IsBounded};
ghost use Rattle.aper_defs.specs.Spelling.{Spells};
ghost use Rattle.aper_defs.specs.Questions.{Prog};
ghost use Rattle.aper_defs.specs.Asking.{asks_whole};
ghost use Rattle.aper_defs.specs.Reading.{Cursor, Fault, at_first, run, decoded};
ghost use Rattle.proof_aper.specs.pieces.Onto.{onto, StillRefused};

/// What questions find in octets, they find when more come, and the place after it is the same.
pub fn what_is_read_stays_read()
    ensures { (questions : Prog) (c : Cursor) (more : List ℕ) (v : Value) (d : Cursor)
        → run questions c ≡ Ok (v, d) → run questions (onto more c) ≡ Ok (v, onto more d) }
{}

/// What questions are refused in octets, but for want of octets, they are refused when more come: at the same bit, on the same way, and
/// but for the greatest length for the same reason.
pub fn what_is_wrong_stays_wrong()
    ensures { (questions : Prog) (c : Cursor) (more : List ℕ) (fault : Fault)
        → run questions c ≡ Err fault → (fault.reason ≡ reasons.Truncated → ⊥)
        → StillRefused (run questions (onto more c)) fault }
{}

/// A proper front of a spelling is refused as cut off.
pub fn a_front_of_a_spelling_is_cut_off()
    ensures { (t : Tree) (v : Value) (front more : List ℕ) → IsBounded t
        → Spells t v (front ++ more) → (more ≡ [] → ⊥)
        → (fault : Fault) × (decoded t front ≡ Err fault) × (fault.reason ≡ reasons.Truncated) }
{}

/// A value is found in octets, whatever follows it, just where they begin with its spelling, and the place is then after that.
pub fn what_is_found_begins_the_octets()
    ensures spelled { (t : Tree) (octets : List ℕ) (v : Value) (d : Cursor) → IsBounded t
        → run (asks_whole t) (at_first octets) ≡ Ok (v, d)
        → (front more : List ℕ) × (octets ≡ front ++ more) × Spells t v front × (d.place ≡ 8 * length front) }
    ensures found { (t : Tree) (v : Value) (front more : List ℕ) → IsBounded t → Spells t v front
        → run (asks_whole t) (at_first (front ++ more)) ≡ Ok (v, record { octets = front ++ more; place = 8 * length front; opens = [] }) }
{}
