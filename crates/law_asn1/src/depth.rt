//! Laws: how deep types stand one inside another, told of a module's items alone, is what its types say.

ghost use Rattle.std.specs.Prelude.{◌+◌, ◌<◌, ◌↔◌, ℕ, List, ◌∷◌, ◌++◌, length};
ghost use Rattle.asn1_syntax.specs.declared.assignments.assignment.Syntax.{Syntax};
ghost use Rattle.asn1_defs.specs.Texts.{IsTextOf};
ghost use Rattle.asn1_defs.specs.Graph.{vertex_count, edges_of};
ghost use Rattle.asn1_defs.specs.Paths.{Nests};
ghost use Rattle.asn1_defs.specs.Judgement.{weights_of, IsTooDeep};
ghost use Rattle.law_asn1.specs.depth.Levels.{assigned, Stands, IsDeepIn};

/// Types stand deeper than a number one inside another, in an assignment and in those that it leads to, exactly where they do so in its items and
/// in those of the assignments that these name. So the deepest is the same.
pub fn types_stand_as_items()
    ensures { (text : List ℕ) (m : Syntax) (t : IsTextOf text m) (k n : ℕ) → k < length m.assignments
        → ((d : ℕ) × Nests (vertex_count m) (edges_of m) (weights_of m) (length m.nodes + k) d × (n < d)) ↔ ((d : ℕ) × Stands (assigned (t.front ++ t.last ∷ t.rest)) k d × (n < d)) }
{}

/// An assignment is what a module is refused for as deep exactly where more than sixty types stand one inside another by its items.
pub fn deep_is_of_items()
    ensures { (text : List ℕ) (m : Syntax) (t : IsTextOf text m) (k : ℕ) → k < length m.assignments
        → IsTooDeep m k ↔ IsDeepIn (t.front ++ t.last ∷ t.rest) k }
{}
