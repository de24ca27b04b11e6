//! The lexical item at the front of a text.

ghost use Rattle.std.specs.Prelude.{◌≡◌, ◌≤◌, ◌^◌, ◌-◌, length, drop, take, nat_eq, IfOk, IfSome, option_map};
ghost use Rattle.std.specs.List.{starts_with};
ghost use Rattle.asn1_tokens.specs.Scan.{is_upper, is_lower, is_digit, is_name_part, is_white, begins, is_mark, next_gap, after_gap, goes_on, after_name, after_digits, after_number, before, magnitude, Lexeme, name_token, long_sign, short_sign, number_lexeme, lexeme_at};
ghost use Rattle.asn1_tokens.specs.declared.scan.Gap.TheVariants.{Between};

use crate::token::{Sign, Token};
use crate::words::{is_left_out, word_of};
use gnb_types::octets::{Memory, Octets};
use std::alloc::Global;

/// Where a byte stands that belongs to no lexical item: between comments, at the second hyphen of a comment's mark,
/// inside the comment, or at the second hyphen of the mark that ends it.
#[derive(Clone, Copy, PartialEq, Eq)]
pub enum Gap {
    Between,
    Opens,
    Comment,
    Closes,
}

fn is_upper(c: u8) -> bool
    ensures { result ≡ is_upper c }
{
    b'A' <= c && c <= b'Z'
}

fn is_lower(c: u8) -> bool
    ensures { result ≡ is_lower c }
{
    b'a' <= c && c <= b'z'
}

fn is_digit(c: u8) -> bool
    ensures { result ≡ is_digit c }
{
    b'0' <= c && c <= b'9'
}

fn is_name_part(c: u8) -> bool
    ensures { result ≡ is_name_part c }
{
    is_upper(c) || is_lower(c) || is_digit(c)
}

fn is_white(c: u8) -> bool
    ensures { result ≡ is_white c }
{
    c == b' ' || c == b'\t' || c == b'\r' || c == b'\n'
}

/// Two hyphens.
fn is_mark(c: u8, tail: &[u8]) -> bool
    ensures { result ≡ is_mark c tail.now }
{
    match tail {
        [] => false,
        [next, ..] => c == b'-' && *next == b'-',
    }
}

fn next_gap(gap: Gap, c: u8, tail: &[u8]) -> Option<Gap>
    ensures { result ≡ next_gap gap c tail.now }
{
    match gap {
        Gap::Between if is_white(c) => Some(Gap::Between),
        Gap::Between if is_mark(c, tail) => Some(Gap::Opens),
        Gap::Between => None,
        Gap::Opens => Some(Gap::Comment),
        Gap::Comment if c == b'\n' => Some(Gap::Between),
        Gap::Comment if is_mark(c, tail) => Some(Gap::Closes),
        Gap::Comment => Some(Gap::Comment),
        Gap::Closes => Some(Gap::Between),
    }
}

/// What follows the white space and comments at the front.
#[tactic(auto, unfolding(crate::specs::Scan::after_gap))]
pub fn after_gap(text: &[u8]) -> &[u8]
    ensures rest { result.now ≡ after_gap Between text.now }
    ensures shorter { length result.now ≤ length text.now }
{
    let mut gap = Gap::Between;
    let mut rest = text;
    while let [c, tail @ ..] = rest {
        match next_gap(gap, *c, tail) {
            None => return rest,
            Some(next) => {
                gap = next;
                rest = tail;
            }
        }
    }
    rest
}

/// The character goes on with a name.
fn goes_on(c: u8, tail: &[u8]) -> bool
    ensures { result ≡ goes_on c tail.now }
{
    match tail {
        [] => is_name_part(c),
        [next, ..] => is_name_part(c) || (c == b'-' && is_name_part(*next)),
    }
}

#[tactic(auto, unfolding(crate::specs::Scan::after_name))]
fn after_name(text: &[u8]) -> &[u8]
    ensures rest { result.now ≡ after_name text.now }
    ensures shorter { length result.now ≤ length text.now }
{
    let mut rest = text;
    while let [c, tail @ ..] = rest {
        if !goes_on(*c, tail) {
            return rest;
        }
        rest = tail;
    }
    rest
}

#[tactic(auto, unfolding(crate::specs::Scan::after_digits))]
fn after_digits(text: &[u8]) -> &[u8]
    ensures rest { result.now ≡ after_digits text.now }
    ensures shorter { length result.now ≤ length text.now }
{
    let mut rest = text;
    while let [c, tail @ ..] = rest {
        if !is_digit(*c) {
            return rest;
        }
        rest = tail;
    }
    rest
}

#[tactic(auto, unfolding(crate::specs::Scan::after_number))]
fn after_number(text: &[u8]) -> &[u8]
    ensures rest { result.now ≡ after_number text.now }
    ensures shorter { length result.now ≤ length text.now }
{
    match text {
        [] => text,
        [b'0', tail @ ..] => tail,
        [_, tail @ ..] => after_digits(tail),
    }
}

/// The number that decimal digits spell, and 2^64 for a greater one.
#[tactic(auto, unfolding(crate::specs::Scan::magnitude))]
fn magnitude(digits: &[u8]) -> u128
    ensures value { result ≡ magnitude digits.now }
    ensures small { result ≤ 2 ^ 64 }
{
    let mut value: u128 = 0;
    for digit in digits {
        value = (value * 10 + u128::from(digit.saturating_sub(b'0'))).min(1 << 64);
    }
    value
}

/// The part of a text before one of its ends.
fn before<'a>(text: &'a [u8], rest: &[u8]) -> &'a [u8]
    requires { length rest.now ≤ length text.now }
    ensures { result.now ≡ before text.now rest.now }
{
    &text[..text.len() - rest.len()]
}

/// The lexical item that a name is.
#[tactic(auto, unfolding(crate::specs::Scan::name_token))]
fn name_token(alloc: Global, name: &[u8]) -> Result<Token, Memory>
    ensures { IfOk result (λ token. token ≡ name_token name.now) }
{
    if is_left_out(name) {
        return Ok(Token::OutOfProfile);
    }
    if let Some(word) = word_of(name) {
        return Ok(Token::Word(word));
    }
    match name {
        [first, ..] if is_upper(*first) => Ok(Token::Upper(Octets::from_slice(alloc, name)?)),
        _ => Ok(Token::Lower(Octets::from_slice(alloc, name)?)),
    }
}

/// A sign of several characters, and what follows it.
#[tactic(auto, unfolding(crate::specs::Scan::long_sign))]
fn long_sign(text: &[u8]) -> Option<(Token, &[u8])>
    ensures lexeme { option_map (λ x. record { token = x.0; rest = x.1.now }) result ≡ long_sign text.now }
    ensures shorter { IfSome result (λ x. length x.1.now ≤ length text.now) }
{
    if text.starts_with(b"::=") {
        return Some((Token::Sign(Sign::Assignment), &text[3..]));
    }
    if text.starts_with(b"...") {
        return Some((Token::Sign(Sign::Ellipsis), &text[3..]));
    }
    if text.starts_with(b"..") {
        return Some((Token::Sign(Sign::Range), &text[2..]));
    }
    None
}

#[tactic(auto, unfolding(crate::specs::Scan::short_sign))]
fn short_sign(c: u8) -> Token
    ensures { result ≡ short_sign c }
{
    match c {
        b'{' => Token::Sign(Sign::LeftBrace),
        b'}' => Token::Sign(Sign::RightBrace),
        b'(' => Token::Sign(Sign::LeftParenthesis),
        b')' => Token::Sign(Sign::RightParenthesis),
        b',' => Token::Sign(Sign::Comma),
        b'|' => Token::Sign(Sign::Bar),
        b'[' => Token::OutOfProfile,
        _ => Token::Nothing,
    }
}

/// A number and what follows it, with its digits at the front of the text.
#[tactic(auto, unfolding(crate::specs::Scan::number_lexeme))]
fn number_lexeme(negative: bool, text: &[u8]) -> (Token, &[u8])
    ensures lexeme { number_lexeme negative text.now ≡ record { token = result.0; rest = result.1.now } }
    ensures shorter { length result.1.now ≤ length text.now }
{
    let rest = after_number(text);
    let value = magnitude(before(text, rest)) as i128;
    (Token::Number(if negative { -value } else { value }), rest)
}

/// The lexical item at the front of a text, and what follows it.
#[tactic(auto, unfolding(crate::specs::Scan::lexeme_at))]
pub fn lexeme_at(alloc: Global, text: &[u8]) -> Result<(Token, &[u8]), Memory>
    ensures lexeme { IfOk result (λ x. lexeme_at text.now ≡ record { token = x.0; rest = x.1.now }) }
    ensures shorter { IfOk result (λ x. length x.1.now ≤ length text.now) }
{
    let [c, tail @ ..] = text else {
        return Ok((Token::EndOfText, text));
    };
    if is_upper(*c) || is_lower(*c) {
        let rest = after_name(text);
        return Ok((name_token(alloc, before(text, rest))?, rest));
    }
    if is_digit(*c) {
        return Ok(number_lexeme(false, text));
    }
    if let [first, ..] = tail {
        if *c == b'-' && is_digit(*first) {
            return Ok(number_lexeme(true, tail));
        }
    }
    match long_sign(text) {
        Some(found) => Ok(found),
        None => Ok((short_sign(*c), tail)),
    }
}
