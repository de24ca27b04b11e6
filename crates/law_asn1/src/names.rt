//! Laws: what a module's items hold, told of the items alone, is what its types and assignments refer to.

ghost use Rattle.std.specs.Prelude.{◌≡◌, ◌+◌, ◌<◌, ◌↔◌, ℕ, List, ◌∷◌, ◌++◌, length};
ghost use Rattle.asn1_syntax.specs.declared.assignments.assignment.Syntax.{Syntax};
ghost use Rattle.asn1_defs.specs.Texts.{IsTextOf};
ghost use Rattle.asn1_defs.specs.Names.{first_unknown};
ghost use Rattle.asn1_defs.specs.Graph.{vertex_count, edges_of};
ghost use Rattle.asn1_defs.specs.Paths.{Leads};
ghost use Rattle.law_asn1.specs.names.Held.{unknown_in, givens, Refers};

/// The name that a module is refused for as unknown is the first in its text that no assignment gives as what it is to stand for.
pub fn unknown_names_are_first()
    ensures { (text : List ℕ) (m : Syntax) (t : IsTextOf text m) → first_unknown m.assignments m.nodes ≡ unknown_in (t.front ++ t.last ∷ t.rest) }
{}

/// An assignment leads to another one, or to itself, exactly where its items hold the other's name, or hold one name after another up to it. So
/// what is refused as recursive is what the text's names make so.
pub fn assignments_lead_by_names()
    ensures { (text : List ℕ) (m : Syntax) (t : IsTextOf text m) (k j : ℕ) → k < length m.assignments
        → Leads (vertex_count m) (edges_of m) (length m.nodes + k) (length m.nodes + j) ↔ Refers (givens (t.front ++ t.last ∷ t.rest)) k j }
{}
