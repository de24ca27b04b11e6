//! Law: the types of a module have ranks, which fall from a type to each type that it leads to.

ghost use Rattle.std.specs.Prelude.{ℕ};
ghost use Rattle.asn1_syntax.specs.declared.assignments.assignment.Syntax.{Syntax};
ghost use Rattle.asn1_defs.specs.Modules.{IsModule};
ghost use Rattle.proof_asn1_modules.specs.ranks.Leading.{IsRank};

/// So whatever goes from a type to those inside it, to that of its name and to those in its set comes to an end, and there is no
/// way with more steps than the module has types and names.
pub fn types_have_ranks()
    ensures { (m : Syntax) → IsModule m → (rank : ℕ → ℕ) × IsRank m rank }
{}
