//! Law: the reading functions read the modules among texts, and tell the first wrong item of the others.

ghost use Rattle.std.specs.Prelude.{◌≡◌, ℕ, List, Ok, Err};
ghost use Rattle.asn1_syntax.specs.declared.types.fault.Fault.{Fault};
ghost use Rattle.asn1_syntax.specs.declared.assignments.assignment.Syntax.{Syntax};
ghost use Rattle.asn1_syntax.specs.assignments.inside.Module.{syntax_of};
ghost use Rattle.asn1_defs.specs.Texts.{IsTextOf, IsFirstWrong};

/// A text is read as a module exactly where it is that module's, and a fault is told exactly of its first wrong item.
pub fn reads_what_is_spelled()
    ensures module { (text : List ℕ) (m : Syntax) → syntax_of text ≡ Ok m → IsTextOf text m }
    ensures only_module { (text : List ℕ) (m : Syntax) → IsTextOf text m → syntax_of text ≡ Ok m }
    ensures fault { (text : List ℕ) (f : Fault) → syntax_of text ≡ Err f → IsFirstWrong text f }
    ensures only_fault { (text : List ℕ) (f : Fault) → IsFirstWrong text f → syntax_of text ≡ Err f }
{}
