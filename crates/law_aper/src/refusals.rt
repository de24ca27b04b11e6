//! Laws of the refusals of aligned PER: octets spell one value or go wrong at one place. Each function does nothing: its contract is
//! the law.

ghost use Rattle.std.specs.Prelude.{◌≡◌, ℕ, List, Result, Err};
ghost use Rattle.aper_defs.specs.Trees.{Tree};
ghost use Rattle.aper_defs.specs.Values.{Value};
ghost use Rattle.aper_defs.specs.Bounds.{IsBounded};
ghost use Rattle.aper_defs.specs.Reading.{Fault, decoded};
ghost use Rattle.aper_defs.specs.loose_defs.Wrong.{WrongAt};
ghost use Rattle.aper_defs.specs.loose_defs.Sets.{HasSets};
ghost use Rattle.law_aper.specs.refusals.Told.{Tells};

/// Where the questions of a type are refused, octets go wrong by its loose layouts: at that bit, for that reason, on that way. The
/// right answers before it begin a loose layout, and no loose layout agrees further.
pub fn a_refusal_is_a_wrong_place()
    ensures { (t : Tree) (octets : List ℕ) (fault : Fault) → IsBounded t → HasSets t
        → decoded t octets ≡ Err fault → WrongAt t octets fault }
{}

/// Octets are the spelling of a value or have a wrong place, and that is but one: the value or the refusal that the questions find.
pub fn octets_are_spelled_or_go_wrong()
    ensures some { (t : Tree) (octets : List ℕ) → IsBounded t → HasSets t
        → (r : Result Value Fault) × Tells t octets r }
    ensures one { (t : Tree) (octets : List ℕ) (r s : Result Value Fault) → IsBounded t
        → Tells t octets r → Tells t octets s → r ≡ s }
    ensures found { (t : Tree) (octets : List ℕ) (r : Result Value Fault) → IsBounded t
        → Tells t octets r → decoded t octets ≡ r }
{}
