//! The lines that were taken.

ghost use Rattle.std.specs.Prelude.{◌≡◌, ◌↔◌, ◌∷◌, [], IfOk, IsTrue, length, reverse};
ghost use Rattle.transcript_defs.specs.Past.{accepted};
ghost use Rattle.transcript_defs.specs.Rules.{IsFinished, ShowsCount, IsInOrder};
ghost use Rattle.transcript_check.specs.inside.Index.{IsIndex};
ghost use Rattle.transcript_check.specs.inside.Past.{IsJudged};

use crate::forms::is_last;
use crate::index::{Index, newest, settle};
use crate::spells::Spells;
use gnb_types::items::{Items, Memory};
use std::alloc::Global;
use std::marker::Model;
use transcript_defs::line::TextLine;
use transcript_defs::rule::Rule;

/// The lines that were taken, and what is asked of them. Contracts see the lines, the newest first.
#[derive(Drop)]
pub struct Past {
    lines: Items<TextLine>,
    index: Index,
}

impl Model for Past {
    ghost use Rattle.std.specs.Prelude.{List, reverse};
    ghost use Rattle.transcript_defs.specs.declared.line.TextLine.{TextLine};

    ghost Value = { List TextLine };

    ghost use Rattle.transcript_check.specs.inside.Index.{IsIndex, settled};

    ghost view = { λ p. reverse p.lines };

    ghost invariant = { λ p. IsIndex (reverse p.lines) (settled (reverse p.lines)) p.index };
}

/// What became of a line.
#[derive(Drop)]
pub enum Judged {
    /// It keeps every rule, and is taken.
    Taken { past: Past },
    /// It breaks this rule, the least that it breaks. The lines before it, the oldest first, stay.
    Broken { lines: Items<TextLine>, rule: Rule },
}

impl Past {
    /// No line was taken.
    pub fn new(alloc: Global) -> Past
        ensures { result ≡ [] }
    {
        Past {
            lines: Items::new(alloc),
            index: Index::new(alloc),
        }
    }

    /// How many lines were taken.
    pub fn len(&self) -> u64
        ensures { result ≡ length self.now }
    {
        self.lines.len() as u64
    }

    /// Whether the text may end here.
    pub fn is_finished(&self) -> bool
        ensures { IsTrue result ↔ IsFinished self.now }
    {
        match newest(&self.lines) {
            Some(line) => is_last(line),
            None => false,
        }
    }

    /// The lines, the oldest first.
    pub fn into_lines(self) -> Items<TextLine>
        ensures { reverse result ≡ self }
    {
        self.lines
    }

    /// Judges a line, and takes it where it keeps every rule.
    pub fn judge<S: Spells>(
        self,
        alloc: Global,
        spells: &S,
        line: TextLine,
    ) -> Result<Judged, Memory>
        ensures { IfOk result (λ judged. IsJudged (S.spelling spells.now) self line judged) }
    {
        let Past {
            mut lines,
            mut index,
        } = self;
        settle(&mut index.accepted, alloc, newest(&lines), &line)?;
        let broken = index.broken_rule(alloc, spells, &lines, &line)?;
        match broken {
            Some(rule) => Ok(Judged::Broken { lines, rule }),
            None => {
                let past = take(alloc, lines, index, line)?;
                Ok(Judged::Taken { past })
            }
        }
    }
}

/// Takes a line after these, of which this is the index; it keeps the rules on COUNTs and their order.
fn take(
    alloc: Global,
    mut lines: Items<TextLine>,
    mut index: Index,
    line: TextLine,
) -> Result<Past, Memory>
    requires index { IsIndex (reverse lines) (accepted line (reverse lines)) index }
    requires count { ShowsCount (reverse lines) line }
    requires order { IsInOrder (reverse lines) line }
    ensures { IfOk result (λ past. past ≡ line ∷ reverse lines) }
{
    index.follow(alloc, &line)?;
    lines.push(line)?;
    Ok(Past { lines, index })
}
