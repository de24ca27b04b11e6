//! One question, or two, or a run.

ghost use Rattle.std.specs.Prelude.{◌≡◌, ◌+◌, ◌==◌, ◌<◌, ◌≤◌, ◌^◌, IfOk, OnOk, length};
ghost use Rattle.aper_defs.specs.Fields.{flag, opening, closing, end};
ghost use Rattle.aper_defs.specs.Questions.{ask, take, ask_aligned};
ghost use Rattle.aper_cursor.specs.Questions.{question_of, unit_of, IsAskable};
ghost use Rattle.aper_cursor.specs.asking.Going.{GoesOn, GoesOnOrMemory, PutsOn, IsAnswerTo};

use crate::{Cursor, Question, RunUnit, Unanswered};
use aper_defs::Reason;

/// A question.
#[inline(always)]
#[tactic(auto, using(crate::proofs::asking::Onward::asked_on, crate::proofs::asking::Onward::asked_wrong, crate::proofs::asking::Onward::asked_later, crate::proofs::asking::Onward::asked_limit))]
pub fn ask_one(cursor: &mut Cursor, question: Question) -> Result<u64, Reason>
    requires { IsAskable question }
    ensures asked { GoesOn (λ p. ask p (question_of question.entry)) cursor.old cursor.new result }
    ensures answer { IfOk result (IsAnswerTo question.entry) }
    ensures on { OnOk result (cursor.old.place ≤ cursor.new.place) }
    ensures limit { OnOk result (cursor.new.place ≤ 1048576) }
{
    Ok(cursor.ask(question)?)
}

/// A question after a pad.
#[inline(always)]
pub fn ask_aligned(cursor: &mut Cursor, question: Question) -> Result<u64, Reason>
    requires { IsAskable question }
    ensures asked { GoesOn (λ p. ask_aligned p (question_of question.entry)) cursor.old cursor.new result }
    ensures answer { IfOk result (IsAnswerTo question.entry) }
    ensures on { OnOk result (cursor.old.place ≤ cursor.new.place) }
    ensures limit { OnOk result (cursor.new.place ≤ 1048576) }
{
    ask_one(cursor, Question::Pad)?;
    Ok(ask_one(cursor, question)?)
}

/// A bit of its own.
#[inline(always)]
pub fn ask_flag(cursor: &mut Cursor) -> Result<bool, Reason>
    ensures { GoesOn (λ p K. ask p flag (λ b. K (b == 1))) cursor.old cursor.new result }
{
    let bit = ask_one(cursor, Question::Flag)?;
    Ok(bit == 1)
}

/// The length of an open type, whose contents then begin.
pub fn ask_opening(cursor: &mut Cursor) -> Result<u64, Unanswered>
    ensures { GoesOnOrMemory (λ p. ask_aligned p opening) cursor.old cursor.new result }
{
    ask_one(cursor, Question::Pad)?;
    let length = cursor.opening()?;
    Ok(length)
}

/// The end of an open type after the fields of its contents.
pub fn ask_closing(cursor: &mut Cursor) -> Result<(), Reason>
    ensures { GoesOn (λ p K. ask p closing (λ m. ask p end (λ z. K tt))) cursor.old cursor.new result }
{
    cursor.closing()?;
    cursor.end()?;
    Ok(())
}

/// So many bits or octets as they stand, put behind others.
pub fn ask_run(
    cursor: &mut Cursor,
    unit: RunUnit,
    count: u32,
    out: &mut Vec<u8>,
) -> Result<(), Unanswered>
    requires { count < 2 ^ 29 }
    ensures asked { PutsOn (λ p. take p (unit_of unit) count) cursor.old cursor.new out.old.items out.new.items result }
    ensures size { OnOk result (length out.new.items ≡ length out.old.items + count) }
    ensures on { OnOk result (cursor.old.place + count ≤ cursor.new.place) }
    ensures limit { OnOk result (cursor.new.place ≤ 1048576) }
{
    cursor.run(unit, count, out)?;
    Ok(())
}
