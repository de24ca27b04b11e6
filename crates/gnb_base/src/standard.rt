//! Readers and writers of the standard library as sources and sinks, for standard input and output.
//!
//! They report the bytes that their reader or writer reports: standard input and output report nothing, and what the
//! system gives and takes there is trusted.

ghost use Rattle.std.specs.Prelude.{◌≡◌, false};

use crate::outside::{Failed, Sink, Source};
use std::io::{Read, Write};

/// Reads from a reader, and counts its reads and how many of them failed, each up to the last value.
#[derive(Drop)]
pub struct StdSource<R: Read> {
    pub reader: R,
    pub faults: u64,
    pub calls: u64,
    pub failed: bool,
}

impl<R: Read> StdSource<R> {
    pub fn new(reader: R) -> StdSource<R>
        ensures { result ≡ record { reader = reader; faults = 0; calls = 0; failed = false } }
    {
        StdSource {
            reader,
            faults: 0,
            calls: 0,
            failed: false,
        }
    }
}

impl<R: Read> Source for StdSource<R> {
    ghost use Rattle.gnb_base.specs.Outside.{SourceAt};

    ghost at = { λ s. record { left = R.remaining s.reader; faults = s.faults; calls = s.calls; failed = s.failed } };

    fn read(&mut self, buf: &mut [u8]) -> Result<usize, Failed> {
        self.calls = self.calls.saturating_add(1);
        self.failed = false;
        match self.reader.read(buf) {
            Ok(count) => Ok(count),
            Err(_) => {
                self.failed = true;
                self.faults = self.faults.saturating_add(1);
                Err(Failed)
            }
        }
    }
}

/// Writes to a writer that keeps nothing back, as that of standard output, and counts how many writes failed, up to the
/// last value. A write that takes none of some bytes is a fault too.
#[derive(Drop)]
pub struct StdSink<W: Write> {
    pub writer: W,
    pub faults: u64,
    pub failed: bool,
}

impl<W: Write> StdSink<W> {
    pub fn new(writer: W) -> StdSink<W>
        ensures { result ≡ record { writer = writer; faults = 0; failed = false } }
    {
        StdSink {
            writer,
            faults: 0,
            failed: false,
        }
    }
}

impl<W: Write> Sink for StdSink<W> {
    ghost use Rattle.gnb_base.specs.Outside.{SinkAt};

    ghost at = { λ s. record { held = W.contents s.writer; faults = s.faults; failed = s.failed } };

    fn write(&mut self, piece: &[u8]) -> Result<usize, Failed> {
        self.failed = false;
        match self.writer.write(piece) {
            Ok(count) if count > 0 || piece.is_empty() => Ok(count),
            _ => {
                self.failed = true;
                self.faults = self.faults.saturating_add(1);
                Err(Failed)
            }
        }
    }
}
