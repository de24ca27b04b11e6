//! Laws of modules that are read: each text has one reading or one fault, and a module keeps to the bounds of the profile.

ghost use Rattle.std.specs.Prelude.{◌≡◌, ◌⊎◌, ℕ, List};
ghost use Rattle.asn1_syntax.specs.declared.types.fault.ModuleReason.{ModuleReason};
ghost use Rattle.asn1_syntax.specs.declared.assignments.assignment.Syntax.{Syntax};
ghost use Rattle.asn1_defs.specs.Readings.{Reads, WrongText};
ghost use Rattle.proof_asn1_modules.specs.asn1_proof_module.Proper.{IsProper};

/// A text has at most one reading, or at most one fault, and never both.
pub fn one_answer()
    ensures reading { (text : List ℕ) (m n : Syntax) (a b : ℕ) → Reads text a m → Reads text b n → (m ≡ n) × (a ≡ b) }
    ensures fault { (text : List ℕ) (l m c d : ℕ) (r s : ModuleReason) → WrongText text l c r → WrongText text m d s → (l ≡ m) × (c ≡ d) × (r ≡ s) }
    ensures never_both { (text : List ℕ) (n l c : ℕ) (m : Syntax) (r : ModuleReason) → Reads text n m → WrongText text l c r → ⊥ }
{}

/// Each text has a reading or a fault.
pub fn some_answer()
    ensures { (text : List ℕ) → ((n : ℕ) × (m : Syntax) × Reads text n m) ⊎ ((l : ℕ) × (c : ℕ) × (r : ModuleReason) × WrongText text l c r) }
{}

/// Each type of the module is within the profile's bounds, and no name, id or code is given twice in its list.
pub fn keeps_to_the_bounds()
    ensures { (text : List ℕ) (n : ℕ) (m : Syntax) → Reads text n m → IsProper m }
{}
