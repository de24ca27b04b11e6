//! The words of a line, from the left: each call takes the next one, and says what is left.

ghost use Rattle.std.specs.Prelude.{◌≡◌, ◌≤◌, IfOk, Bool, List, [], ◌∷◌, ℕ};
ghost use Rattle.scenario_text.specs.script_words.Forms.{words, fixed, number as number_form, sn_bits as sn_bits_form, message as message_form, gnb as gnb_form, ue as ue_form, bearer as bearer_form, node as node_form, dir as dir_form, hex as hex_form, tunnel as tunnel_form};
ghost use Rattle.scenario_text.specs.script_words.Places.{next_word, place, line_end};
ghost use Rattle.scenario_text.specs.script_words.Answers.{words_left, Gives, GivesOrMemory};

use crate::script_words::forms;
use crate::script_words::reason::{TextError, TextReason};
use gnb_types::names::{BearerId, Dir, Gnb, NodeId, SnBits, UeId};
use gnb_types::octets::Octets;
use std::alloc::Global;

/// What is left of a line after the last blank that was read. No word is copied.
#[derive(Clone, Copy)]
pub struct Words<'a> {
    pub rest: Option<&'a [u8]>,
}

impl<'a> Words<'a> {
    /// All the words of a line.
    pub fn of(line: &'a [u8]) -> Words<'a>
        ensures { words_left result.rest ≡ words line.now }
    {
        Words { rest: Some(line) }
    }

    /// The next word, and what is left after it.
    pub fn next(self) -> Result<(&'a [u8], Words<'a>), TextReason>
        ensures { Gives (λ x. (x.0.now, words_left x.1.rest)) result (next_word (words_left self.entry.rest)) }
    {
        let line = self.rest.ok_or(TextReason::Word)?;
        let (word, rest) = forms::cut(line, b' ');
        Ok((word, Words { rest }))
    }

    /// This word, or the reason.
    pub fn fixed(self, text: &[u8], reason: TextReason) -> Result<Words<'a>, TextReason>
        ensures { Gives (λ left. (tt, words_left left.rest)) result (place (fixed text.now reason) (words_left self.entry.rest)) }
    {
        let (word, rest) = self.next()?;
        if word == text { Ok(rest) } else { Err(reason) }
    }

    pub fn number(self, low: u32, high: u32) -> Result<(u32, Words<'a>), TextReason>
        ensures value { Gives (λ x. (x.0, words_left x.1.rest)) result (place (number_form low high) (words_left self.entry.rest)) }
        ensures range { IfOk result (λ x. x.0 ≤ high) }
    {
        let (word, rest) = self.next()?;
        Ok((
            forms::number(word, low, high).ok_or(TextReason::Number)?,
            rest,
        ))
    }

    pub fn sn_bits(self) -> Result<(SnBits, Words<'a>), TextReason>
        ensures { Gives (λ x. (x.0, words_left x.1.rest)) result (place sn_bits_form (words_left self.entry.rest)) }
    {
        let (word, rest) = self.next()?;
        Ok((forms::sn_bits(word).ok_or(TextReason::Number)?, rest))
    }

    pub fn message(self) -> Result<(u32, Words<'a>), TextReason>
        ensures { Gives (λ x. (x.0, words_left x.1.rest)) result (place message_form (words_left self.entry.rest)) }
    {
        let (word, rest) = self.next()?;
        Ok((forms::message(word).ok_or(TextReason::Number)?, rest))
    }

    pub fn gnb(self) -> Result<(Gnb, Words<'a>), TextReason>
        ensures { Gives (λ x. (x.0, words_left x.1.rest)) result (place gnb_form (words_left self.entry.rest)) }
    {
        let (word, rest) = self.next()?;
        Ok((forms::gnb(word).ok_or(TextReason::Name)?, rest))
    }

    pub fn ue(self) -> Result<(UeId, Words<'a>), TextReason>
        ensures { Gives (λ x. (x.0, words_left x.1.rest)) result (place ue_form (words_left self.entry.rest)) }
    {
        let (word, rest) = self.next()?;
        Ok((forms::ue(word).ok_or(TextReason::Name)?, rest))
    }

    pub fn bearer(self) -> Result<(BearerId, Words<'a>), TextReason>
        ensures { Gives (λ x. (x.0, words_left x.1.rest)) result (place bearer_form (words_left self.entry.rest)) }
    {
        let (word, rest) = self.next()?;
        Ok((forms::bearer(word).ok_or(TextReason::Name)?, rest))
    }

    pub fn node(self) -> Result<(NodeId, Words<'a>), TextReason>
        ensures { Gives (λ x. (x.0, words_left x.1.rest)) result (place node_form (words_left self.entry.rest)) }
    {
        let (word, rest) = self.next()?;
        Ok((forms::node(word).ok_or(TextReason::Name)?, rest))
    }

    pub fn dir(self) -> Result<(Dir, Words<'a>), TextReason>
        ensures { Gives (λ x. (x.0, words_left x.1.rest)) result (place dir_form (words_left self.entry.rest)) }
    {
        let (word, rest) = self.next()?;
        Ok((forms::dir(word).ok_or(TextReason::Word)?, rest))
    }

    pub fn tunnel(self) -> Result<((NodeId, u32), Words<'a>), TextReason>
        ensures { Gives (λ x. (x.0, words_left x.1.rest)) result (place tunnel_form (words_left self.entry.rest)) }
    {
        let (word, rest) = self.next()?;
        Ok((forms::tunnel(word)?, rest))
    }

    pub fn hex(self, alloc: Global) -> Result<(Octets, Words<'a>), TextError>
        ensures { GivesOrMemory (λ x. (x.0, words_left x.1.rest)) result (place hex_form (words_left self.entry.rest)) }
    {
        let (word, rest) = self.next()?;
        Ok((forms::hex(alloc, word)?, rest))
    }

    /// No word may be left.
    pub fn end(self) -> Result<(), TextReason>
        ensures { Gives (λ x. x) result (line_end (words_left self.entry.rest)) }
    {
        match self.rest {
            None => Ok(()),
            Some(_) => Err(TextReason::Extra),
        }
    }
}
