//! Laws of the first field at which octets go wrong. Each function does nothing: its contract is the law.

ghost use Rattle.std.specs.Prelude.{◌≡◌, ℕ, ◌≤◌, ◌++◌, List, ◌∷◌, length, Err};
ghost use Rattle.aper_defs.specs.declared.reason.Reason.{Reason};
ghost use Rattle.aper_defs.specs.Trees.{Tree};
ghost use Rattle.aper_defs.specs.Values.{Value};
ghost use Rattle.aper_defs.specs.Fields.{Path, Field};
ghost use Rattle.aper_defs.specs.Layouts.{layout};
ghost use Rattle.aper_defs.specs.Membership.{Has};
ghost use Rattle.aper_defs.specs.Bounds.{IsBounded};
ghost use Rattle.aper_defs.specs.Reading.{Fault, at_first, decoded};
ghost use Rattle.aper_defs.specs.loose_defs.Loose.{Loose, LooseWhole};
ghost use Rattle.aper_defs.specs.loose_defs.Wrong.{AllAgree, place_after, IsWrongFor, AreOfKind, WrongAt};

/// The layout of a value is one of its loose layouts.
pub fn a_layout_is_loose()
    ensures { (p : Path) (t : Tree) (v : Value) → Has p t v → Loose p t v (layout p t v) }
{}

/// Loose layouts of a type that agree with octets on as many fields agree on the same ones, and their next fields are of one kind, on
/// the way to one value.
pub fn the_next_field_is_determined()
    ensures { (t : Tree) (v w : Value) (fs gs : List Field) (x y : Field) (xs ys : List Field) (octets : List ℕ)
        → LooseWhole t v (fs ++ x ∷ xs) → LooseWhole t w (gs ++ y ∷ ys)
        → AllAgree fs (at_first octets) → AllAgree gs (at_first octets) → length fs ≡ length gs
        → (fs ≡ gs) × AreOfKind x y }
{}

/// No loose layout agrees with octets on more fields than one whose next field is wrong.
pub fn no_loose_layout_agrees_further()
    ensures { (t : Tree) (v w : Value) (fs gs : List Field) (x : Field) (xs more : List Field) (octets : List ℕ) (reason : Reason)
        → LooseWhole t v (fs ++ x ∷ xs) → LooseWhole t w (gs ++ more)
        → AllAgree fs (at_first octets) → IsWrongFor x (place_after fs (at_first octets)) reason
        → AllAgree gs (at_first octets) → length gs ≤ length fs }
{}

/// Where octets go wrong by the loose layouts of a type, its questions are refused: at that bit, for that reason, on that way.
pub fn a_wrong_place_is_found()
    ensures { (t : Tree) (octets : List ℕ) (fault : Fault) → IsBounded t
        → WrongAt t octets fault → decoded t octets ≡ Err fault }
{}

/// Octets have at most one wrong place.
pub fn octets_have_one_wrong_place()
    ensures { (t : Tree) (octets : List ℕ) (f g : Fault) → IsBounded t
        → WrongAt t octets f → WrongAt t octets g → f ≡ g }
{}
