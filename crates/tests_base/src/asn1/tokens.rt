//! The items of texts, their places counted by hand.

use asn1_tokens::*;
use std::alloc::Global;

/// What an item is to be.
#[derive(Clone, Copy)]
enum Want {
    Upper(&'static [u8]),
    Lower(&'static [u8]),
    Word(Word),
    Number(i128),
    Sign(Sign),
    OutOfProfile,
    Nothing,
    EndOfText,
}

impl Want {
    fn is(self, token: &Token) -> bool {
        match (self, token) {
            (Want::Upper(text), Token::Upper(name)) => is_text(name.as_slice(), text),
            (Want::Lower(text), Token::Lower(name)) => is_text(name.as_slice(), text),
            (Want::Word(word), Token::Word(found)) => found.is(word),
            (Want::Number(value), Token::Number(found)) => *found == value,
            (Want::Sign(sign), Token::Sign(found)) => found.is(sign),
            (Want::OutOfProfile, Token::OutOfProfile)
            | (Want::Nothing, Token::Nothing)
            | (Want::EndOfText, Token::EndOfText) => true,
            _ => false,
        }
    }
}

/// A text, and its items with the offsets from which and up to which they stand.
struct Row {
    text: &'static str,
    items: &'static [(Want, usize, usize)],
}

const ROWS: [Row; 3] = [
    Row {
        text: "UE ::= a-1 -- c -- {01, -12..END [ x",
        items: &[
            (Want::Upper(b"UE"), 0, 2),
            (Want::Sign(Sign::Assignment), 3, 6),
            (Want::Lower(b"a-1"), 7, 10),
            (Want::Sign(Sign::LeftBrace), 19, 20),
            (Want::Number(0), 20, 21),
            (Want::Number(1), 21, 22),
            (Want::Sign(Sign::Comma), 22, 23),
            (Want::Number(-12), 24, 27),
            (Want::Sign(Sign::Range), 27, 29),
            (Want::Word(Word::End), 29, 32),
            (Want::OutOfProfile, 33, 34),
        ],
    },
    Row {
        text: "99999999999999999999-- -x\n ...a--$",
        items: &[
            (Want::Number(1 << 64), 0, 20),
            (Want::Sign(Sign::Ellipsis), 27, 30),
            (Want::Lower(b"a"), 30, 31),
            (Want::EndOfText, 34, 34),
        ],
    },
    Row {
        text: "\t}a-",
        items: &[
            (Want::Sign(Sign::RightBrace), 1, 2),
            (Want::Lower(b"a"), 2, 3),
            (Want::Nothing, 3, 4),
        ],
    },
];

/// Whether the next item is this one, and is taken where another one may come after it.
fn is_taken(alloc: Global, tokens: &mut Tokens, want: Want) -> bool {
    if !want.is(tokens.token()) {
        return false;
    }
    match tokens.token() {
        Token::OutOfProfile | Token::Nothing | Token::EndOfText => true,
        _ => match tokens.advance(alloc) {
            Ok(taken) => {
                let is_it = want.is(&taken);
                drop(taken);
                is_it
            }
            Err(_) => false,
        },
    }
}

/// Whether these are the items, at their places.
fn are_items(alloc: Global, tokens: &mut Tokens, items: &[(Want, usize, usize)]) -> bool {
    for &(want, start, end) in items {
        if tokens.place() != (Place { start, end }) || !is_taken(alloc, tokens, want) {
            return false;
        }
    }
    true
}

fn has_items(alloc: Global, row: &Row) -> bool {
    match Tokens::new(alloc, row.text.as_bytes()) {
        Ok(mut tokens) => are_items(alloc, &mut tokens, row.items),
        Err(_) => false,
    }
}

#[test]
fn items_stand_where_they_are_counted(rt: HostRuntime) {
    for row in &ROWS {
        assert!(rt; has_items(rt.alloc(), row), "{}", row.text);
    }
}
