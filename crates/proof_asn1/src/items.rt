//! Law: of the items of a text the first that passes a bound, or gives something again, is where its fault is told.

ghost use Rattle.std.specs.Prelude.{◌≡◌, ℕ, List, Ok, Err};
ghost use Rattle.asn1_syntax.specs.declared.types.fault.Fault.{Fault};
ghost use Rattle.asn1_syntax.specs.declared.assignments.assignment.Syntax.{Syntax};
ghost use Rattle.asn1_syntax.specs.assignments.inside.Module.{syntax_of};
ghost use Rattle.proof_asn1.specs.items.JudgedItems.{AreAllowedTo, IsJudged};

/// The items of a module that is read pass no bound and give nothing again, and neither do those before a fault.
pub fn judges_the_items()
    ensures module { (text : List ℕ) (s : Syntax) → syntax_of text ≡ Ok s → AreAllowedTo text s.end }
    ensures fault { (text : List ℕ) (f : Fault) → syntax_of text ≡ Err f → IsJudged text f }
{}
