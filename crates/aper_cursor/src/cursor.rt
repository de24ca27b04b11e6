//! A place in octets, with the open types around it.

ghost use Rattle.std.specs.Prelude.{◌≡◌, ◌+◌, ◌*◌, ◌%◌, ◌==◌, ◌<◌, ◌≤◌, ◌^◌, ◌++◌, ◌∷◌, length, map, replicate, reverse, None, IfOk, OnOk};
ghost use Rattle.bits_core.specs.Bits.{pad_of, numbers_at};
ghost use Rattle.aper_defs.specs.Fields.{opening, closing, end};
ghost use Rattle.aper_defs.specs.Reading.{at_first, bits_at, start_of, ends_at, told_width, asked_width, passes, moved_by};
ghost use Rattle.aper_cursor.specs.Questions.{question_of, unit_of, IsAskable};
ghost use Rattle.aper_cursor.specs.Answers.{Answers, AnswersOrMemory, ReadsRun};
ghost use Rattle.aper_cursor.specs.inside.Places.{Looks, entered, left_open};
ghost use Rattle.aper_cursor.specs.Spans.{span_view};

use crate::error::Unanswered;
use crate::lengths::Extent;
use crate::questions::{Question, RunUnit};
use aper_defs::Reason;
use bits_core::reader::BitReader;
use gnb_types::items::Memory;
use std::alloc::Global;
use std::marker::Model;

/// The greatest number of bits of an encoding.
const BIT_LIMIT: u64 = 1_048_576;

/// An open type around a place: where its contents begin, where they end, and the nearest end of the open types around it.
#[derive(Clone, Copy)]
struct OpenType {
    start: u64,
    finish: u64,
    around: u64,
}

/// An open type around a place: where its contents begin, and where they end.
#[derive(Clone, Copy, Debug, PartialEq, Eq)]
pub struct Span {
    pub start: u64,
    pub finish: u64,
}

/// A place in the bits of octets, and the open types around it, the innermost last. `nearest` is the nearest of their ends.
#[derive(Drop)]
pub struct Cursor<'a> {
    octets: &'a [u8],
    place: u64,
    nearest: u64,
    opens: Vec<OpenType>,
}

impl<'a> Model for Cursor<'a> {
    ghost use Rattle.aper_defs.specs.Reading.{Cursor as Place};

    ghost Value = { Place };

    ghost use Rattle.aper_cursor.specs.inside.Places.{place_of, IsPlace};

    ghost view = { place_of };

    ghost invariant = { IsPlace };
}

impl<'a> Cursor<'a> {
    /// A cursor at the first bit of these octets.
    pub fn new(alloc: Global, octets: &'a [u8]) -> Cursor<'a>
        requires { length octets.now < 2 ^ 61 }
        ensures { result ≡ at_first octets.now }
    {
        Cursor {
            octets,
            place: 0,
            nearest: u64::MAX,
            opens: Vec::new(alloc),
        }
    }

    /// A cursor at a place in these octets, inside these open types, the innermost last.
    pub fn at(
        alloc: Global,
        octets: &'a [u8],
        place: u64,
        spans: &[Span],
    ) -> Result<Cursor<'a>, Memory>
        requires short { length octets.now < 2 ^ 61 }
        requires within { place ≤ 8 * length octets.now }
        requires limit { place ≤ 1048576 }
        ensures { IfOk result (λ c. c ≡ record { octets = octets.now; place = place; opens = map span_view (reverse spans.now) }) }
    {
        let mut cursor = Cursor {
            octets,
            place,
            nearest: u64::MAX,
            opens: Vec::new(alloc),
        };
        for span in spans {
            cursor.surround(*span)?;
        }
        Ok(cursor)
    }

    /// Puts an open type around it, inside all others.
    fn surround(&mut self, span: Span) -> Result<(), Memory>
        ensures { OnOk result (self.new ≡ record { octets = self.old.octets; place = self.old.place; opens = span_view span ∷ self.old.opens }) }
    {
        self.opens.push(OpenType {
            start: span.start,
            finish: span.finish,
            around: self.nearest,
        })?;
        self.nearest = span.finish.min(self.nearest);
        Ok(())
    }

    /// Puts the open types around it in place of others, the innermost last.
    pub fn put_spans(&self, out: &mut Vec<Span>) -> Result<(), Memory>
        ensures { OnOk result (map span_view (reverse out.new.items) ≡ self.now.opens) }
    {
        out.clear();
        for open in &self.opens {
            let span = Span {
                start: open.start,
                finish: open.finish,
            };
            out.push(span)?;
        }
        Ok(())
    }

    /// The number of the next bit, from 0.
    pub fn place(&self) -> u64
        ensures place { result ≡ self.now.place }
        ensures most { result ≤ 1048576 }
        ensures within { result ≤ 8 * length self.now.octets }
    {
        self.place
    }

    /// Whether no octet is left.
    pub fn is_at_end(&self) -> bool
        ensures { result ≡ (self.now.place == 8 * length self.now.octets) }
    {
        self.place == 8 * self.octets.len() as u64
    }

    /// The answer to a question. Where there is none, the cursor stays.
    #[inline(always)]
    pub fn ask(&mut self, question: Question) -> Result<u64, Reason>
        requires { IsAskable question }
        ensures { Answers (question_of question.entry) self.old self.new result }
    {
        let width = self.width_of(&question);
        let number = self.look(width)?;
        if let Some(reason) = question.judged(number) {
            return Err(reason);
        }
        self.go(width);
        Ok(question.answer(number))
    }

    /// The length of an open type, whose contents then begin. Where there is none, the cursor stays.
    pub fn opening(&mut self) -> Result<u64, Unanswered>
        ensures { AnswersOrMemory opening self.old self.new result }
    {
        let length = self.ask(Question::Extent(Extent::Whole {
            least: 1,
            most: 16383,
            outside: None,
        }))?;
        self.enter(length)?;
        Ok(length)
    }

    /// The zero bits up to the next octet after the contents of a complete encoding: 1 where there is no bit, and an octet of zeros
    /// stands there.
    pub fn closing(&mut self) -> Result<u64, Reason>
        ensures { Answers closing self.old self.new result }
    {
        let is_empty = self.is_at_start();
        let width = self.closing_width();
        let number = self.look(width)?;
        if number != 0 {
            return Err(Reason::Padding);
        }
        self.go(width);
        Ok(u64::from(is_empty))
    }

    /// The end of the innermost open type, which is then left.
    pub fn end(&mut self) -> Result<u64, Reason>
        ensures { Answers end self.old self.new result }
    {
        let number = self.look(0)?;
        if !self.is_ended() {
            return Err(Reason::Tail);
        }
        self.leave();
        Ok(number)
    }

    /// So many bits or octets as they stand, put behind others.
    pub fn run(&mut self, unit: RunUnit, count: u32, out: &mut Vec<u8>) -> Result<(), Unanswered>
        requires { count < 2 ^ 29 }
        ensures { ReadsRun (unit_of unit) count self.old self.new out.old.items out.new.items result }
    {
        let width = unit.width();
        if let Some(reason) = self.pass(width * count) {
            return Err(Unanswered::Wrong(reason));
        }
        self.put_run(width, count, out)?;
        self.go(width * count);
        Ok(())
    }

    /// How many bits the answer to a question has.
    #[inline(always)]
    fn width_of(&self, question: &Question) -> u32
        requires { IsAskable question.now }
        ensures width { result ≡ asked_width (question_of question.now) self.now }
        ensures most { result ≤ 64 }
    {
        match question {
            Question::Flag => 1,
            Question::Constrained { width, .. } => *width,
            Question::Digits { count, .. } => 8 * count,
            Question::Signed { count, .. } => 8 * count,
            Question::Small(_) => 7,
            Question::Extent(_) => self.told_width(),
            Question::AdditionBits(count) => *count,
            Question::Character => 8,
            Question::IeCount(_) => 16,
            Question::IeId { .. } => 16,
            Question::Pad => self.pad_width(),
        }
    }

    /// How many bits a length determinant has.
    fn told_width(&self) -> u32
        ensures width { result ≡ told_width (bits_at self.now) }
        ensures most { result ≤ 16 }
    {
        let mut reader = BitReader::at(self.octets, self.place);
        match reader.take_bits(2) {
            Ok(2) => 16,
            _ => 8,
        }
    }

    /// How many bits lead to the next octet.
    fn pad_width(&self) -> u32
        ensures width { result ≡ pad_of self.now.place }
        ensures most { result ≤ 7 }
    {
        (8 - (self.place % 8) as u32) % 8
    }

    /// Where the contents of the innermost open type begin.
    fn start(&self) -> u64
        ensures { result ≡ start_of self.now.opens }
    {
        match self.opens.last() {
            None => 0,
            Some(open) => open.start,
        }
    }

    /// Whether an encoding begins here.
    fn is_at_start(&self) -> bool
        ensures { result ≡ (self.now.place == start_of self.now.opens) }
    {
        self.place == self.start()
    }

    /// Whether the innermost open type ends here.
    fn is_ended(&self) -> bool
        ensures { result ≡ ends_at self.now.place self.now.opens }
    {
        match self.opens.last() {
            None => false,
            Some(open) => self.place == open.finish,
        }
    }

    /// How many bits lead to the end of a complete encoding.
    fn closing_width(&self) -> u32
        ensures width { result ≡ asked_width closing self.now }
        ensures most { result ≤ 8 }
    {
        if self.place == self.start() {
            8
        } else {
            self.pad_width()
        }
    }

    /// What so many bits pass.
    #[inline(always)]
    fn pass(&self, width: u32) -> Option<Reason>
        ensures { result ≡ passes self.now width }
    {
        let end = self.place + u64::from(width);
        if end > self.nearest {
            Some(Reason::Overrun)
        } else if end > BIT_LIMIT {
            Some(Reason::TooLong)
        } else if end > 8 * self.octets.len() as u64 {
            Some(Reason::Truncated)
        } else {
            None
        }
    }

    /// The next bits as a number.
    #[inline(always)]
    fn look(&self, width: u32) -> Result<u64, Reason>
        requires { width ≤ 64 }
        ensures { Looks self.now width result }
    {
        if let Some(reason) = self.pass(width) {
            return Err(reason);
        }
        let mut reader = BitReader::at(self.octets, self.place);
        Ok(reader.take_bits(width).unwrap())
    }

    /// Goes on after bits that pass nothing.
    #[inline(always)]
    fn go(&mut self, width: u32)
        requires { passes self.old width ≡ None }
        ensures { self.new ≡ moved_by width self.old }
    {
        self.place += u64::from(width);
    }

    /// Enters an open type of so many octets.
    fn enter(&mut self, length: u64) -> Result<(), Memory>
        requires { length < 2 ^ 16 }
        ensures { OnOk result (self.new ≡ entered length self.old) }
    {
        let finish = self.place + 8 * length;
        self.surround(Span {
            start: self.place,
            finish,
        })
    }

    /// Leaves the innermost open type.
    fn leave(&mut self)
        ensures { self.new ≡ left_open self.old }
    {
        if let Some(open) = self.opens.pop() {
            self.nearest = open.around;
        }
    }

    /// Puts so many numbers of a width, which are there, behind others.
    fn put_run(&self, width: u32, count: u32, out: &mut Vec<u8>) -> Result<(), Memory>
        requires some { 1 ≤ width }
        requires most { width ≤ 8 }
        requires few { count < 2 ^ 29 }
        requires room { passes self.now (width * count) ≡ None }
        ensures { OnOk result (out.new.items ≡ out.old.items ++ numbers_at (replicate count width) (bits_at self.now)) }
    {
        if width == 8 && self.place % 8 == 0 {
            return Ok(self.put_octets(count, out)?);
        }
        let mut reader = BitReader::at(self.octets, self.place);
        for done in 0..count {
            out.push(reader.take_bits(width).unwrap() as u8)?;
        }
        Ok(())
    }

    /// Puts so many octets, which are there, behind others.
    fn put_octets(&self, count: u32, out: &mut Vec<u8>) -> Result<(), Memory>
        requires whole { self.now.place % 8 ≡ 0 }
        requires few { count < 2 ^ 29 }
        requires room { passes self.now (8 * count) ≡ None }
        ensures { OnOk result (out.new.items ≡ out.old.items ++ numbers_at (replicate count 8) (bits_at self.now)) }
    {
        let start = (self.place / 8) as usize;
        let end = start + count as usize;
        out.extend_from_slice(&self.octets[start..end])?;
        Ok(())
    }
}
