//! Units of a string.

ghost use Rattle.std.specs.Prelude.{◌≡◌, ◌+◌, ◌≤◌, ◌<◌, ◌^◌, length, OnOk};
ghost use Rattle.aper_defs.specs.Questions.{ask_units, ask_characters};
ghost use Rattle.aper_defs.specs.Parts.{pad_limit};
ghost use Rattle.aper_cursor.specs.asking.Going.{PutsOn};
ghost use Rattle.aper_cursor.specs.strings.Contents.{content_of};

use crate::asking::{ask_one, ask_run};
use crate::{Cursor, Question, RunUnit, Unanswered};

/// What a string is made of.
#[derive(Clone, Copy, PartialEq, Eq)]
pub enum Content {
    Bits,
    Octets,
    Characters,
}

impl Content {
    /// A string of a fixed size above this one is aligned.
    pub fn pad_limit(self) -> u32
        ensures { result ≡ pad_limit (content_of self) }
    {
        match self {
            Content::Bits => 16,
            Content::Octets => 2,
            Content::Characters => 0,
        }
    }
}

/// So many units, put after others.
pub fn ask_units(
    cursor: &mut Cursor,
    content: Content,
    count: u32,
    out: &mut Vec<u8>,
) -> Result<(), Unanswered>
    requires { count < 2 ^ 29 }
    ensures asked { PutsOn (λ p. ask_units p (content_of content) count) cursor.old cursor.new out.old.items out.new.items result }
    ensures size { OnOk result (length out.new.items ≡ length out.old.items + count) }
    ensures on { OnOk result (cursor.old.place + count ≤ cursor.new.place) }
    ensures limit { OnOk result (0 < count → cursor.new.place ≤ 1048576) }
{
    match content {
        Content::Bits => Ok(ask_run(cursor, RunUnit::Bit, count, out)?),
        Content::Octets => Ok(ask_run(cursor, RunUnit::Octet, count, out)?),
        Content::Characters => Ok(ask_characters(cursor, count, out)?),
    }
}

/// So many characters, put after others.
fn ask_characters(cursor: &mut Cursor, count: u32, out: &mut Vec<u8>) -> Result<(), Unanswered>
    ensures asked { PutsOn (λ p. ask_characters p count) cursor.old cursor.new out.old.items out.new.items result }
    ensures size { OnOk result (length out.new.items ≡ length out.old.items + count) }
    ensures on { OnOk result (cursor.old.place + count ≤ cursor.new.place) }
    ensures limit { OnOk result (0 < count → cursor.new.place ≤ 1048576) }
{
    for done in 0..count {
        let character = ask_one(cursor, Question::Character)?;
        out.push(character as u8)?;
    }
    Ok(())
}
