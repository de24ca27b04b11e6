//! Lines of an input that comes in pieces.

ghost use Rattle.std.specs.Prelude.{◌≡◌, ◌<◌, ◌≤◌, ◌+◌, ℕ, List, length, MatchOption, MatchBool, IfOk, is_err};
ghost use Rattle.gnb_base.specs.Handing.{Call, Run, Progress, texts, lines_handed_out};
ghost use Rattle.gnb_base.specs.Lines.{lines_of, AreLines, HasNoLf, IsFirstLf};
ghost use Rattle.gnb_base.specs.Pieces.{FillsFront};
ghost use Rattle.gnb_base.specs.Outside.{CountsFaults, one_more};
ghost use Rattle.gnb_base.specs.Reading.{Reading, fresh, NextMeets, input_limit, piece_size};

use crate::outside::{Failed, Source};
use gnb_types::octets::{Memory, Octets};
use memchr::memchr;
use std::alloc::Global;
use std::marker::Model;
use std::mem;

const LINE_FEED: u8 = b'\n';

/// How many bytes of an input are read as lines at most.
pub const INPUT_LIMIT: u64 = 16_777_216;

/// How many bytes one read asks for at most.
pub const PIECE_SIZE: usize = 4096;

/// A line of an input, without its LF. Lines are counted from 1.
#[derive(PartialEq, Eq, Drop)]
pub struct Line {
    pub number: u64,
    pub text: Octets,
}

/// Why there is no next line.
#[derive(Clone, Copy, Debug, PartialEq, Eq)]
pub enum ReadError {
    /// A read failed.
    ReadFault,
    /// The byte after the limit was taken.
    TooLong,
    /// Out of memory.
    Memory,
}

/// What a line reader does from here on: it goes on, or it answers the same always.
#[derive(Clone, Copy, PartialEq, Eq)]
pub enum ReadPhase {
    Going,
    Ended,
    TooLong,
    Failed,
}

/// Hands out the lines of an input one by one, and reads no further than it has to.
///
/// It keeps the bytes of `begun`, a line whose LF hasn't come yet, and after them those of `piece`, the last read,
/// from `start` to `stop`. So each byte is looked at once, however the input comes.
#[derive(Drop)]
pub struct LineReader {
    alloc: Global,
    begun: Vec<u8>,
    piece: Vec<u8>,
    start: usize,
    stop: usize,
    taken: u64,
    lines: u64,
    phase: ReadPhase,
}

impl Model for LineReader {
    ghost use Rattle.gnb_base.specs.Reading.{Reading};

    ghost Value = { Reading };

    ghost use Rattle.gnb_base.specs.LineReader.{reading_of, IsSound};

    ghost view = { reading_of };

    ghost invariant = { IsSound };
}

impl LineReader {
    ghost use Rattle.gnb_base.specs.LineReader.{TakesLine, TakesLast, ReadsMore, TurnMeets};

    /// A reader that has taken nothing yet.
    pub fn new(alloc: Global) -> Result<LineReader, Memory>
        ensures { IfOk result (λ reader. reader ≡ fresh) }
    {
        let piece = vec![in alloc; 0u8; PIECE_SIZE]?;
        Ok(LineReader {
            alloc,
            begun: Vec::new(alloc),
            piece,
            start: 0,
            stop: 0,
            taken: 0,
            lines: 0,
            phase: ReadPhase::Going,
        })
    }

    /// How many bytes were taken so far.
    pub fn read_so_far(&self) -> u64
        ensures { result ≡ self.now.taken }
    {
        self.taken
    }

    /// Whether a whole line is kept, which the next call hands out without a read.
    pub fn keeps_line(&self) -> bool
        ensures { MatchBool result (HasNoLf self.now.kept → ⊥) (HasNoLf self.now.kept) }
    {
        line_end(&self.piece[self.start..self.stop]).is_some()
    }

    /// The next line, or `None` at the end of the input where no byte is kept.
    ///
    /// It reads only where it keeps no whole line. After a failed read, and after the byte past the limit, it keeps what it
    /// took before; after a failed read it may be called again. From the end, from a byte past the limit and from lack of
    /// memory on, it answers the same always.
    pub fn next<S: Source>(&mut self, source: &mut S) -> Result<Option<Line>, ReadError>
        ensures { NextMeets self.old self.new (S.at source.old) (S.at source.new) result }
    {
        match self.phase {
            ReadPhase::Going => self.go_on(source),
            ReadPhase::Ended => Ok(None),
            ReadPhase::TooLong => Err(ReadError::TooLong),
            ReadPhase::Failed => Err(ReadError::Memory),
        }
    }

    fn go_on<S: Source>(&mut self, source: &mut S) -> Result<Option<Line>, ReadError>
        requires { self.old.phase ≡ ReadPhase.Going }
        ensures { NextMeets self.old self.new (S.at source.old) (S.at source.new) result }
    {
        loop {
            if let Some(answer) = self.turn(source) {
                return answer;
            }
        }
    }

    /// Hands out a line that is kept, or reads once.
    fn turn<S: Source>(&mut self, source: &mut S) -> Option<Result<Option<Line>, ReadError>>
        requires { self.old.phase ≡ ReadPhase.Going }
        ensures { TurnMeets self.old self.new (S.at source.old) (S.at source.new) result }
    {
        match self.take_line() {
            Ok(Some(line)) => return Some(Ok(Some(line))),
            Ok(None) => {}
            Err(_) => return Some(Err(ReadError::Memory)),
        }
        match self.read_more(source) {
            Ok(true) => None,
            Ok(false) => match self.take_last() {
                Ok(line) => Some(Ok(line)),
                Err(_) => Some(Err(ReadError::Memory)),
            },
            Err(error) => Some(Err(error)),
        }
    }

    /// The first whole line that is kept.
    fn take_line(&mut self) -> Result<Option<Line>, Memory>
        requires { self.old.phase ≡ ReadPhase.Going }
        ensures { TakesLine self.old self.new result }
    {
        let rest = &self.piece[self.start..self.stop];
        let Some(length) = line_end(rest) else {
            return Ok(None);
        };
        if let Err(error) = self.begun.extend_from_slice(&rest[..length]) {
            self.phase = ReadPhase::Failed;
            return Err(Memory::from(error));
        }
        self.start += length + 1;
        self.lines += 1;
        let text = mem::replace(&mut self.begun, Vec::new(self.alloc));
        Ok(Some(Line {
            number: self.lines,
            text: Octets::from_vec(text),
        }))
    }

    /// All that is kept, as a line without its LF; at the end of the input.
    fn take_last(&mut self) -> Result<Option<Line>, Memory>
        requires going { self.old.phase ≡ ReadPhase.Going }
        requires without_lf { HasNoLf self.old.kept }
        ensures { TakesLast self.old self.new result }
    {
        let rest = &self.piece[self.start..self.stop];
        if let Err(error) = self.begun.extend_from_slice(rest) {
            self.phase = ReadPhase::Failed;
            return Err(Memory::from(error));
        }
        self.start = self.stop;
        self.phase = ReadPhase::Ended;
        if self.begun.is_empty() {
            return Ok(None);
        }
        self.lines += 1;
        let text = mem::replace(&mut self.begun, Vec::new(self.alloc));
        Ok(Some(Line {
            number: self.lines,
            text: Octets::from_vec(text),
        }))
    }

    /// One read, after what is kept; answers whether bytes came.
    fn read_more<S: Source>(&mut self, source: &mut S) -> Result<bool, ReadError>
        requires going { self.old.phase ≡ ReadPhase.Going }
        requires without_lf { HasNoLf self.old.kept }
        ensures { ReadsMore self.old self.new (S.at source.old) (S.at source.new) result }
    {
        let rest = &self.piece[self.start..self.stop];
        if self.begun.extend_from_slice(rest).is_err() {
            self.phase = ReadPhase::Failed;
            return Err(ReadError::Memory);
        }
        self.start = 0;
        self.stop = 0;
        let Ok(count) = read_front(source, self.piece.as_mut_slice(), wanted(self.taken)) else {
            return Err(ReadError::ReadFault);
        };
        self.stop = count;
        self.taken += count as u64;
        if self.taken > INPUT_LIMIT {
            self.phase = ReadPhase::TooLong;
            return Err(ReadError::TooLong);
        }
        Ok(count > 0)
    }
}

/// The lines of bytes, as a function of the bytes and as a relation, are the same.
pub fn lines_are_exact()
    ensures found { (bytes : List ℕ) → AreLines bytes (lines_of bytes) }
    ensures only { (bytes : List ℕ) (lines : List (List ℕ)) → AreLines bytes lines
        → lines ≡ lines_of bytes }
{}

/// Over any calls of `next`, the lines that a new reader hands out are the lines of the bytes that it took.
pub fn lines_handed_out_are_the_lines()
    ensures { (calls : List Call) (taken : List ℕ) (reader : Reading) → Run fresh calls taken reader
        → Progress reader taken (texts (lines_handed_out calls)) }
{}

/// Where the first LF stands.
fn line_end(bytes: &[u8]) -> Option<usize>
    ensures { MatchOption result (HasNoLf bytes.now) (λ i. IsFirstLf bytes.now i) }
{
    memchr(LINE_FEED, bytes)
}

/// How many bytes the next read asks for. The byte after the limit is asked for alone.
fn wanted(taken: u64) -> usize
    requires { taken ≤ input_limit }
    ensures some { 0 < result }
    ensures piece { result ≤ piece_size }
    ensures within { taken < input_limit → taken + result ≤ input_limit }
    ensures alone { taken ≡ input_limit → result ≡ 1 }
{
    if taken == INPUT_LIMIT {
        1
    } else {
        (INPUT_LIMIT - taken).min(PIECE_SIZE as u64) as usize
    }
}

/// Reads into the front of a piece.
fn read_front<S: Source>(source: &mut S, piece: &mut [u8], wanted: usize) -> Result<usize, Failed>
    requires { wanted ≤ length piece.old }
    ensures bound { IfOk result (λ count. count ≤ wanted) }
    ensures bytes { FillsFront (S.at source.old).left (S.at source.new).left wanted result piece.new }
    ensures faults { CountsFaults (S.at source.old).faults (S.at source.new).faults result }
    ensures calls { (S.at source.new).calls ≡ one_more (S.at source.old).calls }
    ensures failed { (S.at source.new).failed ≡ is_err result }
{
    source.read(&mut piece[..wanted])
}
