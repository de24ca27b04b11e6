//! Laws: the lexical items of a text are those of relations that have no state.

ghost use Rattle.std.specs.Prelude.{◌≡◌, ◌||◌, ℕ, List, ◌∷◌, length, true};
ghost use Rattle.asn1_tokens.specs.declared.token.Token.{Token};
ghost use Rattle.asn1_tokens.specs.declared.scan.Gap.TheVariants.{Between};
ghost use Rattle.asn1_tokens.specs.Scan.{is_upper, is_lower, is_digit, after_gap, after_name, after_number, lexeme_at};
ghost use Rattle.asn1_tokens.specs.Stream.{Placed, items_of};
ghost use Rattle.asn1_defs.specs.Items.{IsLongest, IsName, IsNumber, IsGap, IsItem, AreItems};

/// A name is as long as it can be, and so is a number without its sign.
pub fn longest_items()
    ensures name { (c : ℕ) (cs : List ℕ) → is_upper c || is_lower c ≡ true → IsLongest IsName (c ∷ cs) (after_name (c ∷ cs)) }
    ensures number { (c : ℕ) (cs : List ℕ) → is_digit c ≡ true → IsLongest IsNumber (c ∷ cs) (after_number (c ∷ cs)) }
{}

/// What is passed before an item is its gap, and a text has one gap at its front.
pub fn gaps_are_passed()
    ensures passed { (text : List ℕ) → IsGap text (after_gap Between text) }
    ensures one { (text a b : List ℕ) → IsGap text a → IsGap text b → a ≡ b }
{}

/// A text has one item at its front, the one that is read there, and one rest behind it.
pub fn items_are_longest()
    ensures all { (text : List ℕ) → IsItem text (lexeme_at text).token (lexeme_at text).rest }
    ensures one { (text : List ℕ) (t u : Token) (a b : List ℕ) → IsItem text t a → IsItem text u b → (t ≡ u) × (a ≡ b) }
{}

/// The items of a text are those that its gaps leave, one behind another, and there are no others.
pub fn items_are_these()
    ensures all { (text : List ℕ) → AreItems (length text) text (items_of text) }
    ensures one { (total : ℕ) (text : List ℕ) (a b : List Placed) → AreItems total text a → AreItems total text b → a ≡ b }
{}
