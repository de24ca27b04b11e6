//! Which components and additions are there.

ghost use Rattle.std.specs.Prelude.{◌≡◌, ℕ, ◌≤◌, length, true, if◌then◌else◌, IfOk};
ghost use Rattle.bits_core.specs.Bits.{bits_of};
ghost use Rattle.aper_defs.specs.Trees.{Tree};
ghost use Rattle.aper_defs.specs.Questions.{ask_flags};
ghost use Rattle.aper_defs.specs.Asking.{ask_marks};
ghost use Rattle.aper_values.specs.types.Types.{parts_of};
ghost use Rattle.aper_cursor.specs.asking.Going.{GoesOnOrMemory};

use aper_cursor::asking::{ask_extension, ask_one};
use aper_cursor::{Cursor, Question, Role, Unanswered};
use asn1_syntax::types::Component;
use gnb_types::bits::Bits;
use gnb_types::items::Memory;
use std::alloc::Global;

/// Which components are there: a bit for each OPTIONAL one, and each mandatory one is.
pub fn ask_flags(
    alloc: Global,
    cursor: &mut Cursor,
    parts: &[Component],
) -> Result<Bits, Unanswered>
    ensures asked { (of : ℕ → Tree) → GoesOnOrMemory (λ p. ask_flags p (parts_of of parts.now)) cursor.old cursor.new result }
    ensures size { IfOk result (λ there. length there ≡ length parts.now) }
{
    let mut there = Vec::with_capacity(alloc, parts.len())?;
    for part in parts {
        // As an extension bit, it stands only where it may be 0 or 1.
        let marked = ask_extension(cursor, part.optional)?;
        there.push(is_there(part.optional, marked))?;
    }
    Ok(Bits::from_vec(there))
}

fn is_there(optional: bool, marked: bool) -> bool
    ensures { result ≡ (if optional then marked else true) }
{
    !optional || marked
}

/// Which additions are there, of at most 64; none where the extension bit is 0.
pub fn ask_marks(alloc: Global, cursor: &mut Cursor, extended: bool) -> Result<Bits, Unanswered>
    ensures asked { GoesOnOrMemory (λ p. ask_marks p extended) cursor.old cursor.new result }
    ensures most { IfOk result (λ marks. length marks ≤ 64) }
{
    if !extended {
        return Ok(Bits::new(alloc));
    }
    let further = ask_one(cursor, Question::Small(Role::Length))?;
    let count = further as u32 + 1;
    let number = ask_one(cursor, Question::AdditionBits(count))?;
    Ok(bits_of(alloc, count, number)?)
}

/// So many bits of a number, the highest first.
fn bits_of(alloc: Global, count: u32, number: u64) -> Result<Bits, Memory>
    requires { count ≤ 64 }
    ensures bits { IfOk result (λ bits. bits ≡ bits_of count number) }
    ensures size { IfOk result (λ bits. length bits ≡ count) }
{
    let mut bits = Vec::new(alloc);
    for done in 0..count {
        let bit = (number >> (count - 1 - done)) % 2;
        bits.push(bit == 1)?;
    }
    Ok(Bits::from_vec(bits))
}
