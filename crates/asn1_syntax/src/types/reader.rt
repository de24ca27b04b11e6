//! What a reader takes: words, signs, names and numbers.

ghost use Rattle.std.specs.Prelude.{◌≡◌, List};
ghost use Rattle.asn1_tokens.specs.Stream.{items_of, first_token, first_place, others, is_last};
ghost use Rattle.asn1_syntax.specs.types.Reading.{begins_with, begins_with_sign};
ghost use Rattle.asn1_syntax.specs.types.inside.Reading.{Gives, first_word, unexpected, word_at, sign_at, upper_at, lower_at, number_at, fault_at};

use crate::types::fault::{Fault, ModuleReason, ReadError};
use asn1_tokens::{Sign, Token, Tokens, Word};
use gnb_types::octets::Octets;
use std::alloc::Global;
use std::marker::Model;

/// A text that is read, with one lexical item of look-ahead. Contracts see the items that are left.
#[derive(Drop)]
pub struct Reader<'a> {
    alloc: Global,
    tokens: Tokens<'a>,
}

impl<'a> Model for Reader<'a> {
    ghost use Rattle.std.specs.Prelude.{List};
    ghost use Rattle.asn1_tokens.specs.Stream.{Placed};

    ghost Value = { List Placed };

    ghost view = { λ r. r.tokens };
}

impl<'a> Reader<'a> {
    /// The reader of a text.
    pub fn new(alloc: Global, text: &'a [u8]) -> Result<Reader<'a>, ReadError>
        ensures { Gives (λ reader. reader) result (Ok (items_of text.now)) }
    {
        let tokens = Tokens::new(alloc, text)?;
        Ok(Reader { alloc, tokens })
    }

    /// Where lists of what is read are kept.
    pub fn alloc(&self) -> Global {
        self.alloc
    }

    /// The offset at which the first item begins.
    pub fn place(&self) -> usize
        ensures { result ≡ (first_place self.now).start }
    {
        self.tokens.place().start
    }

    /// The offset behind the first item.
    pub fn end(&self) -> usize
        ensures { result ≡ (first_place self.now).end }
    {
        self.tokens.place().end
    }

    /// A fault at the first item.
    pub fn fault(&self, reason: ModuleReason) -> Fault
        ensures { result ≡ fault_at reason self.now }
    {
        Fault {
            place: self.place(),
            reason,
        }
    }

    /// The fault that the first item can't stand where it stands.
    #[tactic(auto, unfolding(crate::specs::types::inside::Reading::unexpected))]
    pub fn unexpected(&self) -> ReadError
        ensures { result ≡ ReadError.Fault (unexpected self.now) }
    {
        let reason = match self.tokens.token() {
            Token::OutOfProfile => ModuleReason::OutOfProfile,
            Token::Nothing => ModuleReason::Token,
            Token::EndOfText => ModuleReason::Truncated,
            _ => ModuleReason::Form,
        };
        ReadError::Fault(self.fault(reason))
    }

    pub fn begins_with(&self, word: Word) -> bool
        ensures { result ≡ begins_with word self.now }
    {
        match self.tokens.token() {
            Token::Word(found) => found.is(word),
            _ => false,
        }
    }

    /// The word that stands first, if a word does.
    pub fn first_word(&self) -> Option<Word>
        ensures { result ≡ first_word self.now }
    {
        match self.tokens.token() {
            Token::Word(word) => Some(*word),
            _ => None,
        }
    }

    pub fn begins_with_sign(&self, sign: Sign) -> bool
        ensures { result ≡ begins_with_sign sign self.now }
    {
        match self.tokens.token() {
            Token::Sign(found) => found.is(sign),
            _ => false,
        }
    }

    /// Takes this word.
    #[tactic(auto, unfolding(crate::specs::types::inside::Reading::word_at))]
    pub fn word(&mut self, word: Word) -> Result<(), ReadError>
        ensures { Gives (λ _. self.new) result (word_at word self.old) }
    {
        if !self.begins_with(word) {
            return Err(self.unexpected());
        }
        drop(self.tokens.advance(self.alloc)?);
        Ok(())
    }

    /// Takes this sign.
    #[tactic(auto, unfolding(crate::specs::types::inside::Reading::sign_at))]
    pub fn sign(&mut self, sign: Sign) -> Result<(), ReadError>
        ensures { Gives (λ _. self.new) result (sign_at sign self.old) }
    {
        if !self.begins_with_sign(sign) {
            return Err(self.unexpected());
        }
        drop(self.tokens.advance(self.alloc)?);
        Ok(())
    }

    /// Takes a name of upper form.
    #[tactic(auto, unfolding(crate::specs::types::inside::Reading::upper_at))]
    pub fn upper(&mut self) -> Result<Octets, ReadError>
        ensures { Gives (λ name. (name, self.new)) result (upper_at self.old) }
    {
        if !matches!(self.tokens.token(), Token::Upper(_)) {
            return Err(self.unexpected());
        }
        match self.tokens.advance(self.alloc)? {
            Token::Upper(name) => Ok(name),
            _ => unreachable!(),
        }
    }

    /// Takes a name of lower form.
    #[tactic(auto, unfolding(crate::specs::types::inside::Reading::lower_at))]
    pub fn lower(&mut self) -> Result<Octets, ReadError>
        ensures { Gives (λ name. (name, self.new)) result (lower_at self.old) }
    {
        if !matches!(self.tokens.token(), Token::Lower(_)) {
            return Err(self.unexpected());
        }
        match self.tokens.advance(self.alloc)? {
            Token::Lower(name) => Ok(name),
            _ => unreachable!(),
        }
    }

    /// Takes a number.
    #[tactic(auto, unfolding(crate::specs::types::inside::Reading::number_at))]
    pub fn number(&mut self) -> Result<i128, ReadError>
        ensures { Gives (λ value. (value, self.new)) result (number_at self.old) }
    {
        let Token::Number(value) = self.tokens.token() else {
            return Err(self.unexpected());
        };
        let value = *value;
        drop(self.tokens.advance(self.alloc)?);
        Ok(value)
    }
}
