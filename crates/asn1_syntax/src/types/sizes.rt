//! Numbers within bounds, sizes and the type INTEGER.

ghost use Rattle.std.specs.Prelude.{◌≡◌, ◌≤◌, ◌<◌, ◌≤ℤ◌, pos, ◌^◌, IfOk};
ghost use Rattle.asn1_syntax.specs.types.inside.Reading.{Gives};
ghost use Rattle.asn1_syntax.specs.types.Sizes.{integer_least, integer_greatest};
ghost use Rattle.asn1_syntax.specs.types.inside.Sizes.{bounded_at, natural_at, ellipsis_at, size_end_at, size_rest_at, size_at, optional_size_at, integer_ellipsis_at, integer_at};

use crate::types::definition::{Definition, Size};
use crate::types::fault::{ModuleReason, ReadError};
use crate::types::reader::Reader;
use asn1_tokens::{Sign, Word};

const INTEGER_LEAST: i128 = -(1 << 63);

const INTEGER_GREATEST: i128 = (1 << 64) - 1;

const SIGNED_GREATEST: i128 = (1 << 63) - 1;

const SIZE_GREATEST: u32 = 65535;

impl<'a> Reader<'a> {
    /// Takes a number from `low` to `high`.
    #[tactic(auto, unfolding(crate::specs::types::inside::Sizes::bounded_at))]
    pub fn bounded(&mut self, low: i128, high: i128) -> Result<i128, ReadError>
        ensures value { Gives (λ value. (value, self.new)) result (bounded_at low high self.old) }
        ensures low { IfOk result (λ value. low ≤ℤ value) }
        ensures high { IfOk result (λ value. value ≤ℤ high) }
    {
        let fault = self.fault(ModuleReason::Bounds);
        let value = self.number()?;
        if value < low || value > high {
            return Err(ReadError::Fault(fault));
        }
        Ok(value)
    }

    /// Takes a number from `low` to `high`.
    #[tactic(auto, unfolding(crate::specs::types::inside::Sizes::natural_at))]
    pub fn natural(&mut self, low: u32, high: u32) -> Result<u32, ReadError>
        ensures value { Gives (λ value. (value, self.new)) result (natural_at low high self.old) }
        ensures high { IfOk result (λ value. value ≤ high) }
    {
        Ok(self.bounded(i128::from(low), i128::from(high))? as u32)
    }

    /// Takes `, ...` where it stands, and answers whether it does.
    #[tactic(auto, unfolding(crate::specs::types::inside::Sizes::ellipsis_at))]
    fn ellipsis(&mut self) -> Result<bool, ReadError>
        ensures { Gives (λ found. (found, self.new)) result (ellipsis_at self.old) }
    {
        if !self.begins_with_sign(Sign::Comma) {
            return Ok(false);
        }
        self.sign(Sign::Comma)?;
        self.sign(Sign::Ellipsis)?;
        Ok(true)
    }

    #[tactic(auto, unfolding(crate::specs::types::inside::Sizes::size_end_at))]
    fn size_end(&mut self, low: u32, high: u32) -> Result<Size, ReadError>
        ensures { Gives (λ size. (size, self.new)) result (size_end_at low high self.old) }
    {
        let extensible = self.ellipsis()?;
        self.sign(Sign::RightParenthesis)?;
        self.sign(Sign::RightParenthesis)?;
        Ok(Size {
            low,
            high,
            extensible,
        })
    }

    /// Takes what follows the first number of a size.
    #[tactic(auto, unfolding(crate::specs::types::inside::Sizes::size_rest_at))]
    fn size_rest(&mut self, is_text: bool, low: u32) -> Result<Size, ReadError>
        requires { low < 2 ^ 16 }
        ensures { Gives (λ size. (size, self.new)) result (size_rest_at is_text low self.old) }
    {
        if self.begins_with_sign(Sign::Range) {
            self.sign(Sign::Range)?;
            let least = if is_text { (low + 1).max(3) } else { low + 1 };
            let high = self.natural(least, SIZE_GREATEST)?;
            return self.size_end(low, high);
        }
        let ends = self.begins_with_sign(Sign::Comma)
            || self.begins_with_sign(Sign::RightParenthesis);
        if is_text && ends {
            return Err(ReadError::Fault(self.fault(ModuleReason::Bounds)));
        }
        self.size_end(low, low)
    }

    /// Takes a size, `(SIZE (..))`; that of a PrintableString varies.
    #[tactic(auto, unfolding(crate::specs::types::inside::Sizes::size_at))]
    pub fn size(&mut self, is_text: bool) -> Result<Size, ReadError>
        ensures { Gives (λ size. (size, self.new)) result (size_at is_text self.old) }
    {
        self.sign(Sign::LeftParenthesis)?;
        self.word(Word::Size)?;
        self.sign(Sign::LeftParenthesis)?;
        let low = self.natural(1, SIZE_GREATEST)?;
        self.size_rest(is_text, low)
    }

    /// Takes a size where one stands.
    #[tactic(auto, unfolding(crate::specs::types::inside::Sizes::optional_size_at))]
    pub fn optional_size(&mut self, is_text: bool) -> Result<Option<Size>, ReadError>
        ensures { Gives (λ size. (size, self.new)) result (optional_size_at is_text self.old) }
    {
        if !self.begins_with_sign(Sign::LeftParenthesis) {
            return Ok(None);
        }
        Ok(Some(self.size(is_text)?))
    }

    #[tactic(auto, unfolding(crate::specs::types::inside::Sizes::integer_ellipsis_at))]
    fn integer_ellipsis(&mut self, high: i128) -> Result<bool, ReadError>
        ensures { Gives (λ found. (found, self.new)) result (integer_ellipsis_at high self.old) }
    {
        if !self.begins_with_sign(Sign::Comma) {
            return Ok(false);
        }
        self.sign(Sign::Comma)?;
        let fault = self.fault(ModuleReason::Bounds);
        self.sign(Sign::Ellipsis)?;
        if high > SIGNED_GREATEST {
            return Err(ReadError::Fault(fault));
        }
        Ok(true)
    }

    /// Takes what follows the word INTEGER.
    #[tactic(auto, unfolding(crate::specs::types::inside::Sizes::integer_at))]
    pub fn integer(&mut self) -> Result<Definition, ReadError>
        ensures { Gives (λ definition. (definition, self.new)) result (integer_at self.old) }
    {
        self.sign(Sign::LeftParenthesis)?;
        let low = self.bounded(INTEGER_LEAST, INTEGER_GREATEST)?;
        self.sign(Sign::Range)?;
        let greatest = (low + INTEGER_GREATEST).min(INTEGER_GREATEST);
        let high = self.bounded(low, greatest)?;
        let extensible = self.integer_ellipsis(high)?;
        self.sign(Sign::RightParenthesis)?;
        Ok(Definition::Integer {
            low,
            high,
            extensible,
        })
    }
}
