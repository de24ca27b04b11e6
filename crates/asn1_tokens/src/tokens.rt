//! The lexical items of a text, one at a time.

ghost use Rattle.std.specs.Prelude.{◌≡◌, length, IfOk, OnOk, List, false};
ghost use Rattle.asn1_tokens.specs.Stream.{items_of, first_token, first_place, others, is_last};

use crate::scan::{after_gap, lexeme_at};
use crate::token::{Place, Token};
use gnb_types::octets::Memory;
use std::alloc::Global;
use std::marker::Model;
use std::mem::replace;

/// The lexical items that are left of a text, with the first of them looked at. Contracts see their list.
#[derive(Drop)]
pub struct Tokens<'a> {
    token: Token,
    total: usize,
    start: usize,
    rest: &'a [u8],
}

impl<'a> Model for Tokens<'a> {
    ghost use Rattle.std.specs.Prelude.{◌∷◌, ◌-◌, ◌≤◌, List, length};
    ghost use Rattle.asn1_tokens.specs.Stream.{Placed, after};

    ghost Value = { List Placed };

    ghost view = { λ t. record { token = t.token; place = record { start = t.start; end = t.total - length t.rest.now } } ∷ after t.total t.token t.rest.now };

    ghost invariant = { λ t. length t.rest.now ≤ t.total };
}

impl<'a> Tokens<'a> {
    /// The lexical items of a text.
    pub fn new(alloc: Global, text: &'a [u8]) -> Result<Tokens<'a>, Memory>
        ensures { IfOk result (λ tokens. tokens ≡ items_of text.now) }
    {
        let total = text.len();
        let here = after_gap(text);
        let (token, rest) = lexeme_at(alloc, here)?;
        Ok(Tokens {
            token,
            total,
            start: total - here.len(),
            rest,
        })
    }

    /// The first item.
    pub fn token(&self) -> &Token
        ensures { result.now ≡ first_token self.now }
    {
        &self.token
    }

    /// Where the first item stands.
    pub fn place(&self) -> Place
        ensures { result ≡ first_place self.now }
    {
        Place {
            start: self.start,
            end: self.total - self.rest.len(),
        }
    }

    /// Takes the first item, which is none that ends the list. After an error the state is free.
    pub fn advance(&mut self, alloc: Global) -> Result<Token, Memory>
        requires { is_last (first_token self.old) ≡ false }
        ensures token { IfOk result (λ token. token ≡ first_token self.old) }
        ensures others { OnOk result (self.new ≡ others self.old) }
    {
        let here = after_gap(self.rest);
        let (token, rest) = lexeme_at(alloc, here)?;
        self.start = self.total - here.len();
        self.rest = rest;
        Ok(replace(&mut self.token, token))
    }
}
