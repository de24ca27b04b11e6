//! Heads of messages.

ghost use Rattle.std.specs.Prelude.{◌≤◌, IfOk};
ghost use Rattle.aper_cursor.specs.asking.Going.{GoesOn};
ghost use Rattle.aper_frames.specs.heads.Heads.{ask_third, ask_message_head, IsMessageHead};

use aper_cursor::asking::{ask_aligned, ask_flag, ask_one};
use aper_cursor::{Cursor, Question, Role};
use aper_defs::Reason;

/// What stands before the body of a PDU.
#[derive(Clone, Copy, PartialEq, Eq)]
pub enum MessageHead {
    /// The outcome: 0 initiating message, 1 successful outcome, 2 unsuccessful outcome. The procedure's code, and its
    /// criticality: 0 reject, 1 ignore, 2 notify.
    Known {
        outcome: u32,
        code: u8,
        criticality: u8,
    },
    /// An outcome from 3 to 66.
    Past(u32),
}

/// What stands before the body of a PDU.
pub fn ask_message_head(cursor: &mut Cursor) -> Result<MessageHead, Reason>
    ensures asked { GoesOn ask_message_head cursor.old cursor.new result }
    ensures head { IfOk result IsMessageHead }
{
    let is_past = ask_flag(cursor)?;
    if is_past {
        let past = ask_one(cursor, Question::Small(Role::Index))?;
        return Ok(MessageHead::Past(3 + past as u32));
    }
    let outcome = ask_third(cursor)?;
    let octet = Question::Constrained {
        role: Role::Index,
        width: 8,
        most: 255,
    };
    let code = ask_aligned(cursor, octet)?;
    let criticality = ask_third(cursor)?;
    Ok(MessageHead::Known {
        outcome: outcome as u32,
        code: code as u8,
        criticality: criticality as u8,
    })
}

/// One of three, by its place.
pub fn ask_third(cursor: &mut Cursor) -> Result<u64, Reason>
    ensures asked { GoesOn ask_third cursor.old cursor.new result }
    ensures most { IfOk result (λ n. n ≤ 2) }
{
    let third = Question::Constrained {
        role: Role::Index,
        width: 2,
        most: 2,
    };
    Ok(ask_one(cursor, third)?)
}
