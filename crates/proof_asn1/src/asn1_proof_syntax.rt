//! Laws: the reading functions read what the grammar spells, and tell the first item with which no module goes on.

ghost use Rattle.std.specs.Prelude.{◌≡◌, ℕ, List, Ok, Err};
ghost use Rattle.asn1_syntax.specs.declared.types.fault.Fault.{Fault};
ghost use Rattle.asn1_syntax.specs.declared.assignments.assignment.Syntax.{Syntax};
ghost use Rattle.asn1_syntax.specs.assignments.inside.Module.{syntax_of};
ghost use Rattle.proof_asn1.specs.asn1_proof_syntax.Grammatical.{IsModuleFront, IsWrongItem};

/// What is read as a module is a module's text, and the fault of another text is at its first wrong item.
pub fn reads_the_grammar()
    ensures module { (text : List ℕ) (s : Syntax) → syntax_of text ≡ Ok s → IsModuleFront text s.end }
    ensures fault { (text : List ℕ) (f : Fault) → syntax_of text ≡ Err f → IsWrongItem text f }
{}
