//! The end of what was read and of what was written, for what is said on standard error. Nothing of the
//! program's answer depends on it: where memory is short, it is forgotten.

use gnb_base::outside::{Failed, Sink, Source};
use scenario_text::script_words::forms::cut;
use std::alloc::Global;
use std::mem::swap;

const LINE_FEED: u8 = b'\n';

/// How many bytes are kept at least, where so many came.
const ROOM: usize = 16_384;

/// The last bytes of a text, and how many lines ended before them.
#[derive(Drop)]
pub struct Tail {
    earlier: Vec<u8>,
    kept: Vec<u8>,
    ended: u64,
    is_lost: bool,
}

/// How many lines end in these bytes.
fn line_ends(bytes: &[u8]) -> u64 {
    let mut ends: u64 = 0;
    for byte in bytes {
        if *byte == LINE_FEED {
            ends = ends.saturating_add(1);
        }
    }
    ends
}

/// The line of this number in a text, counted from 1.
fn line_of(text: &[u8], number: u64) -> Option<&[u8]> {
    let mut left = text;
    for _ in 1..number {
        let (_, rest) = cut(left, LINE_FEED);
        left = rest?;
    }
    let (line, _) = cut(left, LINE_FEED);
    Some(line)
}

impl Tail {
    pub fn new(alloc: Global) -> Tail {
        Tail {
            earlier: Vec::new(alloc),
            kept: Vec::new(alloc),
            ended: 0,
            is_lost: false,
        }
    }

    /// Takes further bytes of the text.
    fn take(&mut self, bytes: &[u8]) {
        if self.kept.len() >= ROOM {
            self.ended = self
                .ended
                .saturating_add(line_ends(self.earlier.as_slice()));
            swap(&mut self.earlier, &mut self.kept);
            self.kept.clear();
        }
        if self.kept.extend_from_slice(bytes).is_err() {
            self.is_lost = true;
        }
    }

    /// All that is kept, as one text.
    fn text(&self, alloc: Global) -> Option<Vec<u8>> {
        let mut text = Vec::new(alloc);
        text.extend_from_slice(self.earlier.as_slice()).ok()?;
        text.extend_from_slice(self.kept.as_slice()).ok()?;
        Some(text)
    }

    /// The bytes of the line of this number, where all of it is kept.
    pub fn line(&self, alloc: Global, number: u64) -> Option<Vec<u8>> {
        if self.is_lost || number <= self.ended {
            return None;
        }
        let text = self.text(alloc)?;
        let at = number - self.ended;
        // what stands first may be the end of a line
        if at == 1 && self.ended > 0 {
            return None;
        }
        let line = line_of(text.as_slice(), at)?;
        let mut copy = Vec::new(alloc);
        copy.extend_from_slice(line).ok()?;
        Some(copy)
    }

    /// The last line but one.
    pub fn before_last(&self, alloc: Global) -> Option<Vec<u8>> {
        let text = self.text(alloc)?;
        let ends = line_ends(text.as_slice()).saturating_add(self.ended);
        self.line(alloc, ends.saturating_sub(1))
    }
}

/// A source that keeps the end of what was read.
#[derive(Drop)]
pub struct TailSource<S: Source + Drop> {
    pub source: S,
    pub tail: Tail,
}

impl<S: Source + Drop> Source for TailSource<S> {
    ghost use Rattle.gnb_base.specs.Outside.{SourceAt};

    ghost at = { λ s. S.at s.source };

    fn read(&mut self, buf: &mut [u8]) -> Result<usize, Failed> {
        let given = self.source.read(buf);
        if let Ok(count) = given {
            self.tail.take(&buf[..count]);
        }
        given
    }
}

/// A sink that keeps the end of what was written.
#[derive(Drop)]
pub struct TailSink<K: Sink + Drop> {
    pub sink: K,
    pub tail: Tail,
}

impl<K: Sink + Drop> Sink for TailSink<K> {
    ghost use Rattle.gnb_base.specs.Outside.{SinkAt};

    ghost at = { λ s. K.at s.sink };

    fn write(&mut self, piece: &[u8]) -> Result<usize, Failed> {
        let taken = self.sink.write(piece);
        if let Ok(count) = taken {
            self.tail.take(&piece[..count]);
        }
        taken
    }
}
