//! Laws of a decoder of aligned PER that is fed in pieces: wherever its input is cut, it says what it says of the whole. Each function
//! does nothing: its contract is the law.

ghost use Rattle.std.specs.Prelude.{◌≡◌, ℕ, ◌+◌, ◌<◌, ◌≤◌, ◌++◌, length, List, [], Err};
ghost use Rattle.aper_defs.specs.declared.reason.Reason.TheVariants as reasons;
ghost use Rattle.aper_defs.specs.Trees.{Tree};
ghost use Rattle.aper_defs.specs.Values.{Value};
ghost use Rattle.aper_defs.specs.Bounds.{IsBounded};
ghost use Rattle.aper_defs.specs.Spelling.{Spells};
ghost use Rattle.aper_defs.specs.Reading.{Fault, decoded};
ghost use Rattle.aper_defs.specs.feeding_defs.Feeding.{whole, cut, wrong, stage, fed, joined};
ghost use Rattle.law_aper.specs.feeding.Whole.{SaysOf};

/// However the input is cut, what is said last is what is said of the whole: the same value with as many octets, or cut off there, or
/// refused at the same bit and on the same way, and but for the greatest length for the same reason. What is cut off keeps all octets.
pub fn cutting_changes_nothing()
    ensures said { (t : Tree) (pieces : List (List ℕ))
        → SaysOf t (joined pieces) (fed t [] pieces).now }
    ensures kept { (t : Tree) (pieces : List (List ℕ)) (fault : Fault)
        → (fed t [] pieces).now ≡ cut fault
        → (fed t [] pieces).kept ≡ joined pieces }
{}

/// A value is there exactly where octets begin with its spelling, which has as many octets as are told.
pub fn a_value_is_there_where_a_front_spells_it()
    ensures spelled { (t : Tree) (kept : List ℕ) (v : Value) (size : ℕ) → IsBounded t
        → stage t kept ≡ whole v size
        → (front more : List ℕ) × (kept ≡ front ++ more) × Spells t v front × (size ≡ length front) }
    ensures found { (t : Tree) (v : Value) (front more : List ℕ) → IsBounded t → Spells t v front
        → stage t (front ++ more) ≡ whole v (length front) }
{}

/// More octets are awaited exactly where those that are there are refused as cut off. What is refused for another reason is refused so
/// as a whole.
pub fn more_is_awaited_where_octets_are_cut_off()
    ensures cut_off { (t : Tree) (kept : List ℕ) (fault : Fault) → stage t kept ≡ cut fault
        → (decoded t kept ≡ Err fault) × (fault.reason ≡ reasons.Truncated) }
    ensures awaited { (t : Tree) (kept : List ℕ) (fault : Fault)
        → decoded t kept ≡ Err fault → fault.reason ≡ reasons.Truncated
        → stage t kept ≡ cut fault }
    ensures refused { (t : Tree) (kept : List ℕ) (fault : Fault) → stage t kept ≡ wrong fault
        → (decoded t kept ≡ Err fault) × (fault.reason ≡ reasons.Truncated → ⊥) }
{}

/// A value that isn't there yet ends in the next piece, where it is there then.
pub fn a_value_ends_in_the_piece_that_completes_it()
    ensures { (t : Tree) (kept piece : List ℕ) (fault : Fault) (v : Value) (size : ℕ)
        → IsBounded t → stage t kept ≡ cut fault → stage t (kept ++ piece) ≡ whole v size
        → (length kept < size) × (size ≤ length kept + length piece) }
{}
