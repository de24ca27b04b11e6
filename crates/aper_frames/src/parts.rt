//! Which part of a SEQUENCE comes next.

ghost use Rattle.std.specs.Prelude.{ℕ, ◌≡◌, ◌+◌, ◌≤◌, [], ◌∷◌, IfOk, MatchOption, option_copied};
ghost use Rattle.aper_defs.specs.Trees.{Tree};
ghost use Rattle.aper_defs.specs.Values as seen;
ghost use Rattle.aper_defs.specs.Fields.{Path};
ghost use Rattle.aper_defs.specs.Questions.{Prog};
ghost use Rattle.aper_frames.specs.Frames.{components_left, components_next, additions_left, additions_next, IsNamed};
ghost use Rattle.aper_frames.specs.Weights.{part_weight, components_weight, addition_weight, additions_weight};

use crate::frame::{Additions, Components};
use asn1_syntax::types::Component;
use gnb_types::items::Memory;

/// The next addition that is there.
#[derive(Clone, Copy)]
pub enum Addition<'m> {
    Named(&'m Component),
    Unnamed,
    End,
}

impl<'m> Components<'m> {
    /// The next component that is there. Those before it that are absent have places among the values.
    pub fn next(&mut self) -> Result<Option<&'m Component>, Memory>
        ensures asked { IfOk result (λ next. (of : ℕ → Tree) (p : Path) (K : seen.Value → Prog)
            → components_left of self.old p K ≡ components_next of self.new p K (option_copied next)) }
        ensures lighter { IfOk result (λ next. (w : ℕ → ℕ)
            → part_weight w (option_copied next) + components_weight w self.new ≤ components_weight w self.old) }
    {
        while let Some(is_there) = self.there.next() {
            let Some(component) = self.take() else {
                return Ok(None);
            };
            if is_there {
                return Ok(Some(component));
            }
            self.made.push(None)?;
        }
        Ok(None)
    }

    /// Takes the next component.
    #[inline(always)]
    fn take(&mut self) -> Option<&'m Component>
        ensures next { MatchOption result ((self.old.left.now ≡ []) × (self.new.left.now ≡ [])) (λ part. self.old.left.now ≡ part.now ∷ self.new.left.now) }
        ensures there { self.new.there ≡ self.old.there }
        ensures made { self.new.made.items ≡ self.old.made.items }
        ensures additions { self.new.additions.now ≡ self.old.additions.now }
        ensures extended { self.new.extended ≡ self.old.extended }
    {
        match self.left.split_first() {
            None => None,
            Some((component, left)) => {
                self.left = left;
                Some(component)
            }
        }
    }
}

impl<'m> Additions<'m> {
    /// The next addition that is there. Those before it that are absent have places among the values.
    pub fn next(&mut self) -> Result<Addition<'m>, Memory>
        ensures asked { IfOk result (λ next. (of : ℕ → Tree) (p : Path) (K : seen.Value → Prog)
            → additions_left of self.old p K ≡ additions_next of self.new p K next) }
        ensures lighter { IfOk result (λ next. (w : ℕ → ℕ)
            → addition_weight w next + additions_weight w self.new ≤ additions_weight w self.old) }
    {
        while let Some(is_there) = self.there.next() {
            let named = self.named();
            if is_there {
                return Ok(named);
            }
            self.made.push(None)?;
        }
        Ok(Addition::End)
    }

    /// Takes the next named addition, where there is one.
    fn named(&mut self) -> Addition<'m>
        ensures next { IsNamed self.old.left.now self.new.left.now result }
        ensures there { self.new.there ≡ self.old.there }
        ensures made { self.new.made.items ≡ self.old.made.items }
        ensures root { self.new.root.items ≡ self.old.root.items }
    {
        match self.left.split_first() {
            None => Addition::Unnamed,
            Some((component, left)) => {
                self.left = left;
                Addition::Named(component)
            }
        }
    }
}
