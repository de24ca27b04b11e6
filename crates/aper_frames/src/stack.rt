//! The values inside which another one is being read.

ghost use Rattle.std.specs.Prelude.{◌≡◌, [], ◌∷◌, OnOk, MatchOption, reverse};

use crate::frame::Frame;
use gnb_types::items::Memory;
use std::alloc::Global;
use std::marker::Model;

/// Room for so many is made with the first one: a message of the profile has about as many inside one another.
const FRAMES_AT_FIRST: usize = 8;

/// The values inside which another one is being read. Contracts see them from the innermost one on.
#[derive(Drop)]
pub struct Stack<'m> {
    frames: Vec<Frame<'m>>,
}

impl<'m> Model for Stack<'m> {
    ghost use Rattle.std.specs.Prelude.{List, reverse};
    ghost use Rattle.std.specs.Coded.{codes};
    ghost use Rattle.aper_values.specs.contracts.value.Value as value;
    ghost use Rattle.aper_frames.specs.declared.frame.Frame.{Frame};

    ghost Value = { List Frame };

    ghost coded = { Prim.hlevel (codes, value.the_row.coded) };

    ghost view = { λ s. reverse s.frames.items };
}

impl<'m> Stack<'m> {
    pub fn new(alloc: Global) -> Stack<'m>
        ensures { result ≡ [] }
    {
        Stack {
            frames: Vec::new(alloc),
        }
    }

    /// Puts one inside all others. After an error the state is unspecified.
    #[inline(always)]
    pub fn push(&mut self, frame: Frame<'m>) -> Result<(), Memory>
        ensures { OnOk result (self.new ≡ frame.entry ∷ self.old) }
    {
        if self.frames.is_empty() {
            self.frames.reserve(FRAMES_AT_FIRST)?;
        }
        self.frames.push(frame)?;
        Ok(())
    }

    /// Takes the innermost one.
    #[inline(always)]
    pub fn pop(&mut self) -> Option<Frame<'m>>
        ensures { MatchOption result ((self.old ≡ []) × (self.new ≡ [])) (λ frame. self.old ≡ frame ∷ self.new) }
    {
        self.frames.pop()
    }

    /// All, from the outermost one on.
    pub fn as_slice(&self) -> &[Frame<'m>]
        ensures { reverse result.now ≡ self.now }
    {
        self.frames.as_slice()
    }
}
