//! A checker of a transcript, line by line.

ghost use Rattle.std.specs.Prelude.{◌≡◌, [], IfOk};
ghost use Rattle.transcript_check.specs.Steps.{going, LineMeets, FinishMeets};
ghost use Rattle.transcript_check.specs.inside.Phases.{progress, answer};

use crate::past::{Judged, Past};
use crate::spells::Spells;
use gnb_types::items::{Items, Memory};
use std::alloc::Global;
use std::marker::Model;
use std::mem;
use transcript_defs::line::TextLine;
use transcript_defs::rule::Rule;
use transcript_lines::lines::read_line;

/// Why a checker doesn't go on.
#[derive(Clone, Copy, Debug, PartialEq, Eq)]
pub enum CheckError {
    /// The text breaks this rule, the least that it breaks at its first wrong line. After it each call answers the same.
    Unsound { rule: Rule },
    /// Out of memory. After it each call answers the same.
    Memory,
}

impl From<Memory> for CheckError {
    fn from(_error: Memory) -> CheckError {
        CheckError::Memory
    }
}

/// How far a check has come.
#[derive(Drop)]
enum Phase {
    /// The lines so far keep every rule.
    Going { past: Past },
    /// The line after these breaks this rule.
    Refused { lines: Items<TextLine>, rule: Rule },
    /// Memory ran out.
    Spent,
}

/// What was checked so far. Contracts see the lines that were taken, and what the checker refused.
#[derive(Drop)]
pub struct Checker {
    phase: Phase,
}

impl Model for Checker {
    ghost use Rattle.transcript_check.specs.Steps.{Progress};

    ghost Value = { Progress };

    ghost use Rattle.transcript_check.specs.inside.Phases.{progress};

    ghost view = { λ c. progress c.phase };
}

impl Checker {
    /// A checker that took no line.
    pub fn new(alloc: Global) -> Result<Checker, Memory>
        ensures { IfOk result (λ checker. checker ≡ going []) }
    {
        Ok(Checker {
            phase: Phase::Going {
                past: Past::new(alloc),
            },
        })
    }

    /// Takes the next line of the text, without its line feed.
    #[tactic(auto, using(crate::proofs::CheckLemmas::memory_meets))]
    pub fn line<S: Spells>(
        &mut self,
        alloc: Global,
        spells: &S,
        text: &[u8],
    ) -> Result<(), CheckError>
        ensures { LineMeets (S.spelling spells.now) text.now self.old self.new result }
    {
        let phase = mem::replace(&mut self.phase, Phase::Spent);
        match phase.after(alloc, spells, text) {
            Ok(phase) => {
                let answer = phase.answer();
                self.phase = phase;
                answer
            }
            Err(_) => Err(CheckError::Memory),
        }
    }

    /// Ends the text. Answers how many lines it has.
    pub fn finish(&self) -> Result<u64, CheckError>
        ensures { FinishMeets self.now result }
    {
        match &self.phase {
            Phase::Going { past } => end(past),
            Phase::Refused { rule, .. } => Err(CheckError::Unsound { rule: *rule }),
            Phase::Spent => Err(CheckError::Memory),
        }
    }
}

impl Phase {
    /// How far the check is after a line of the text. Where memory had run out it is out still.
    fn after<S: Spells>(self, alloc: Global, spells: &S, text: &[u8]) -> Result<Phase, Memory>
        ensures { IfOk result (λ phase. LineMeets (S.spelling spells.now) text.now (progress self) (progress phase) (answer (progress phase))) }
    {
        match self {
            Phase::Going { past } => follow(alloc, spells, past, text),
            Phase::Refused { lines, rule } => Ok(Phase::Refused { lines, rule }),
            Phase::Spent => Err(Memory::told()),
        }
    }

    fn answer(&self) -> Result<(), CheckError>
        ensures { result ≡ answer (progress self.now) }
    {
        match self {
            Phase::Going { .. } => Ok(()),
            Phase::Refused { rule, .. } => Err(CheckError::Unsound { rule: *rule }),
            Phase::Spent => Err(CheckError::Memory),
        }
    }
}

/// How far the check is after a line of the text, where the lines before it keep every rule.
#[tactic(auto, using(crate::proofs::CheckLemmas::no_line_meets, crate::proofs::CheckLemmas::taken_meets, crate::proofs::CheckLemmas::broken_meets))]
fn follow<S: Spells>(alloc: Global, spells: &S, past: Past, text: &[u8]) -> Result<Phase, Memory>
    ensures { IfOk result (λ phase. LineMeets (S.spelling spells.now) text.now (going past) (progress phase) (answer (progress phase))) }
{
    let read = read_line(alloc, text)?;
    let Some(line) = read else {
        return Ok(Phase::Refused {
            lines: past.into_lines(),
            rule: Rule::Form,
        });
    };
    let judged = past.judge(alloc, spells, line)?;
    match judged {
        Judged::Taken { past } => Ok(Phase::Going { past }),
        Judged::Broken { lines, rule } => Ok(Phase::Refused { lines, rule }),
    }
}

fn end(past: &Past) -> Result<u64, CheckError>
    ensures { FinishMeets (going past.now) result }
{
    if past.is_finished() {
        Ok(past.len())
    } else {
        Err(CheckError::Unsound { rule: Rule::End })
    }
}
