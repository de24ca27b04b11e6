//! A text that is taken from the front.

use memchr::memchr;

/// An i128 holds every number of so many digits.
const DIGITS: usize = 38;

/// What is left of a text. Where a call answers `None`, what is left is unspecified.
#[derive(Drop)]
pub(crate) struct Scan<'t> {
    rest: &'t [u8],
}

impl<'t> Scan<'t> {
    pub(crate) fn new(text: &'t [u8]) -> Scan<'t> {
        Scan { rest: text }
    }

    /// Takes these octets, if they come next.
    pub(crate) fn take(&mut self, octets: &[u8]) -> Option<()> {
        self.rest = self.rest.strip_prefix(octets)?;
        Some(())
    }

    /// A text in quotes, up to the next quote.
    pub(crate) fn text(&mut self) -> Option<&'t [u8]> {
        self.take(b"\"")?;
        let length = memchr(b'"', self.rest)?;
        let (text, rest) = self.rest.split_at(length);
        self.rest = &rest[1..];
        Some(text)
    }

    /// The name of a member, with its colon.
    pub(crate) fn key(&mut self) -> Option<&'t [u8]> {
        let name = self.text()?;
        self.take(b":")?;
        Some(name)
    }

    /// The next octet, where it is a digit.
    fn digit(&mut self) -> Option<u8> {
        let (first, rest) = self.rest.split_first()?;
        if !first.is_ascii_digit() {
            return None;
        }
        self.rest = rest;
        Some(*first - b'0')
    }

    /// An integer.
    pub(crate) fn number(&mut self) -> Option<i128> {
        let is_negative = self.take(b"-").is_some();
        let mut number = i128::from(self.digit()?);
        for _ in 1..DIGITS {
            let Some(digit) = self.digit() else {
                break;
            };
            number = number.checked_mul(10)?.checked_add(i128::from(digit))?;
        }
        if is_negative {
            number.checked_neg()
        } else {
            Some(number)
        }
    }
}
