//! Law: the reading functions read what the items mean, and items have one meaning.

ghost use Rattle.std.specs.Prelude.{◌≡◌, ℕ, List, Ok};
ghost use Rattle.asn1_tokens.specs.Stream.{Placed, items_of};
ghost use Rattle.asn1_syntax.specs.declared.assignments.assignment.Syntax.{Syntax};
ghost use Rattle.asn1_syntax.specs.assignments.inside.Module.{syntax_of};
ghost use Rattle.asn1_defs.specs.ModuleMeanings.{MeansModule};

/// A module that is read is what the text's items mean, and no items mean two modules.
pub fn tells_the_values()
    ensures read { (text : List ℕ) (s : Syntax) → syntax_of text ≡ Ok s → MeansModule (items_of text) s }
    ensures one { (ts : List Placed) (s t : Syntax) → MeansModule ts s → MeansModule ts t → s ≡ t }
{}
