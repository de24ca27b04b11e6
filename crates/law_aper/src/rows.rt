//! Worked spellings as a theorem: the layouts of these values are the octets that were worked out for them. No code stands on it.

ghost use Rattle.law_aper.specs.rows.Row.{told_bits, laid_bits, AreValues, read_value, told_value, read_refusal, told_refusal};
ghost use Rattle.law_aper.specs.rows.Worked.{worked};
ghost use Rattle.law_aper.specs.rows.Forms.{forms};
ghost use Rattle.law_aper.specs.rows.Forms2.{more_forms};
ghost use Rattle.law_aper.specs.rows.Messages.{messages};
ghost use Rattle.law_aper.specs.rows.Refusals.{refusals};
ghost use Rattle.law_aper.specs.rows.Fragments.{fragments};
ghost use Rattle.std.specs.Prelude.{map, ◌≡◌};

/// Each worked spelling is that of its value.
pub fn worked_spellings()
    ensures worked { map laid_bits worked ≡ map told_bits worked }
    ensures forms { map laid_bits forms ≡ map told_bits forms }
    ensures more_forms { map laid_bits more_forms ≡ map told_bits more_forms }
    ensures messages { map laid_bits messages ≡ map told_bits messages }
{}

/// Each of them spells a value of its type.
pub fn worked_values()
    ensures worked { AreValues worked }
    ensures forms { AreValues forms }
    ensures more_forms { AreValues more_forms }
    ensures messages { AreValues messages }
{}

/// The questions of a type find each of them again.
pub fn worked_readings()
    ensures worked { map read_value worked ≡ map told_value worked }
    ensures forms { map read_value forms ≡ map told_value forms }
    ensures more_forms { map read_value more_forms ≡ map told_value more_forms }
    ensures messages { map read_value messages ≡ map told_value messages }
{}

/// And they find the first wrong field of octets that spell nothing.
pub fn worked_refusals()
    ensures { map read_refusal refusals ≡ map told_refusal refusals }
{}

/// A string of 16,384 octets comes in parts, and one of 16,383 doesn't.
pub fn worked_fragments()
    ensures spelled { map laid_bits fragments ≡ map told_bits fragments }
    ensures read { map read_value fragments ≡ map told_value fragments }
{}
