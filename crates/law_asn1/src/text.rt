//! Law: a module that is read is written with the items that it was read from.

ghost use Rattle.std.specs.Prelude.{ℕ, List};
ghost use Rattle.asn1_syntax.specs.declared.assignments.assignment.Syntax.{Syntax};
ghost use Rattle.asn1_defs.specs.Readings.{Reads};
ghost use Rattle.law_asn1.specs.text.Written.{IsWrittenSo};

/// The text's items up to the module's end are those that the module is written with, so each value in it is what the text says.
pub fn written_as_read()
    ensures { (text : List ℕ) (n : ℕ) (m : Syntax) → Reads text n m → IsWrittenSo text m }
{}
