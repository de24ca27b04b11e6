//! Laws of the words `encode` and `decode`. Each function does nothing: its contract is the law.
#![tactic(auto)]

ghost use Rattle.std.specs.Prelude.{◌≡◌, ℕ, List, [], Some};
ghost use Rattle.gnb_types.specs.Hex.{hex_of, read_hex};
ghost use Rattle.asn1_syntax.specs.declared.assignments.assignment.Syntax.{Syntax};
ghost use Rattle.asn1_defs.specs.Modules.{IsModule};
ghost use Rattle.aper_defs.specs.Values.{Value};
ghost use Rattle.aper_defs.specs.Membership.{Has};
ghost use Rattle.aper_values.specs.types.Types.{tree};
ghost use Rattle.json_defs.specs.shown_defs.Printed.{shown_as};
ghost use Rattle.json_defs.specs.type_defs.Types.{named};
ghost use Rattle.values_json.specs.Texts.{IsReadAgain, IsTextOf};
ghost use Rattle.command_values.specs.declared.way.Way.{Way};
ghost use Rattle.command_values.specs.declared.way.Way.TheVariants.{Encode, Decode};
ghost use Rattle.command_values.specs.declared.answer.Wrong.{Wrong};
ghost use Rattle.command_values.specs.Answers.{IsAnswered, IsWrong};

/// A line has at most one answer.
pub fn a_line_has_one_answer()
    ensures { (way : Way) (m : Syntax) (id : ℕ) (line a b : List ℕ) → IsModule m
        → IsAnswered way m id line a → IsAnswered way m id line b → a ≡ b }
{}

/// A line that has an answer is not refused, so that a whole input is one whose lines all have answers.
pub fn a_line_with_an_answer_is_not_refused()
    ensures { (way : Way) (m : Syntax) (id : ℕ) (line text : List ℕ) (wrong : Wrong)
        → IsModule m → IsAnswered way m id line text → IsWrong way m id line wrong → ⊥ }
{}

/// A text of the printed tree of a value, as `json_of_value` answers it, is JSON of that value: the tree is never too deep to be read.
pub fn a_printed_text_is_read_again()
    ensures { (m : Syntax) (id : ℕ) (v : Value) (text : List ℕ) → IsModule m → Has [] (tree m id) v
        → IsReadAgain text (shown_as (named m id) v) → IsTextOf (named m id) text v }
{}

/// What octets are decoded to is encoded again as these octets, in upper-case digits.
pub fn what_is_decoded_is_encoded_again()
    ensures { (m : Syntax) (id : ℕ) (line text : List ℕ) → IsModule m → IsAnswered Decode m id line text
        → (octets : List ℕ) × (read_hex line ≡ Some octets) × IsAnswered Encode m id text (hex_of octets) }
{}
