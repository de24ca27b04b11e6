//! Octets of what isn't known.

ghost use Rattle.std.specs.Prelude.{◌≤◌, IfOk};
ghost use Rattle.aper_defs.specs.Fields.{extent, whole, octet};
ghost use Rattle.aper_defs.specs.Questions.{ask_aligned, take};
ghost use Rattle.aper_cursor.specs.asking.Going.{GoesOn, GoesOnOrMemory};
ghost use Rattle.aper_frames.specs.heads.Raw.{GoesOnRaw};

use aper_cursor::asking::{ask_aligned, ask_run};
use aper_cursor::{Cursor, Extent, Question, RunUnit, Unanswered};
use aper_defs::Reason;
use aper_values::make::raw;
use aper_values::value::Value;
use gnb_types::octets::Octets;
use std::alloc::Global;

/// Why there are no octets of what isn't known.
#[derive(Clone, Copy, Debug, PartialEq, Eq)]
pub enum RawError {
    /// The length is wrong. It belongs to the value around the octets.
    Length(Reason),
    /// The octets are wrong, which are a value of their own.
    Octets(Reason),
    Memory,
}

impl From<Reason> for RawError {
    ghost use Rattle.std.specs.Prelude.{◌≡◌};
    ghost use Rattle.aper_frames.specs.declared.heads.raw.RawError.TheVariants.{Length as WrongLength};

    ghost from_gives = { λ reason e. e ≡ WrongLength reason };

    fn from(reason: Reason) -> RawError {
        RawError::Length(reason)
    }
}

impl From<Unanswered> for RawError {
    ghost use Rattle.std.specs.Prelude.{◌≡◌};
    ghost use Rattle.aper_frames.specs.heads.Raw.{octets_error};

    ghost from_gives = { λ error e. e ≡ octets_error error };

    fn from(error: Unanswered) -> RawError {
        match error {
            Unanswered::Wrong(reason) => RawError::Octets(reason),
            Unanswered::Memory => RawError::Memory,
        }
    }
}

/// Where the octets are the value itself, it doesn't matter which of the two is wrong.
impl From<RawError> for Unanswered {
    ghost use Rattle.std.specs.Prelude.{◌≡◌};
    ghost use Rattle.aper_frames.specs.heads.Raw.{error_of};

    ghost from_gives = { λ error e. e ≡ error_of error };

    fn from(error: RawError) -> Unanswered {
        match error {
            RawError::Length(reason) | RawError::Octets(reason) => Unanswered::Wrong(reason),
            RawError::Memory => Unanswered::Memory,
        }
    }
}

/// The octets of an open type whose contents aren't known.
pub fn ask_raw(alloc: Global, cursor: &mut Cursor) -> Result<Value, RawError>
    ensures { GoesOnRaw cursor.old cursor.new result }
{
    let count = ask_length(cursor)?;
    let octets = ask_octets(alloc, cursor, count as u32)?;
    Ok(raw(octets))
}

/// How many octets an open type has.
fn ask_length(cursor: &mut Cursor) -> Result<u64, Reason>
    ensures asked { GoesOn (λ p. ask_aligned p (extent (whole 1 16383 None))) cursor.old cursor.new result }
    ensures most { IfOk result (λ n. n ≤ 16383) }
{
    let length = Extent::Whole {
        least: 1,
        most: 16383,
        outside: None,
    };
    Ok(ask_aligned(cursor, Question::Extent(length))?)
}

/// So many octets as they stand.
fn ask_octets(alloc: Global, cursor: &mut Cursor, count: u32) -> Result<Octets, Unanswered>
    requires { count ≤ 16383 }
    ensures { GoesOnOrMemory (λ p. take p octet count) cursor.old cursor.new result }
{
    let mut octets = Vec::new(alloc);
    ask_run(cursor, RunUnit::Octet, count, &mut octets)?;
    Ok(Octets::from_vec(octets))
}
