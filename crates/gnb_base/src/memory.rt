//! Sources and sinks in memory, some of whose calls fail as a list says.

ghost use Rattle.std.specs.Prelude.{◌≡◌, ◌+◌, ◌<◌, ◌≤◌, ◌↔◌, ◌++◌, length, take, drop, Some, Contains, IsErr, IfOk, OnErr, is_err};
ghost use Rattle.std.specs.Io.{ReadsAtMost, WritesAtMost};
ghost use Rattle.std.specs.Io.KnownBytes.{ReadConsumes, WriteAppends};
ghost use Rattle.gnb_base.specs.Outside.{CountsFaults, one_more};
ghost use Rattle.gnb_base.specs.InMemory.{starts, empty_sink, failed_from, moved_from, sink_failed, sink_moved, moved};

use crate::outside::{Failed, Sink, Source};
use gnb_types::octets::Memory;
use std::alloc::Global;
use std::marker::Model;

/// Gives the bytes that it holds, at most so many in a call.
#[derive(Drop)]
pub struct MemorySource {
    bytes: Vec<u8>,
    given: usize,
    piece: usize,
    calls: u64,
    failing: Vec<u64>,
    faults: u64,
    failed: bool,
}

impl Model for MemorySource {
    ghost use Rattle.gnb_base.specs.InMemory.{InMemory};

    ghost Value = { InMemory };

    ghost use Rattle.std.specs.Prelude.{◌<◌, ◌≤◌, length};
    ghost use Rattle.gnb_base.specs.InMemory.{source_of};

    ghost view = { source_of };

    ghost invariant = { λ s. (s.given ≤ length s.bytes.items) × (0 < s.piece) };
}

impl MemorySource {
    /// A source of these bytes, of which a call gives at most `piece`. The calls with the numbers in `failing`, counted
    /// from 1, fail; where it is empty, none does.
    pub fn new(bytes: Vec<u8>, piece: usize, failing: Vec<u64>) -> MemorySource
        requires { 0 < piece }
        ensures { result ≡ starts bytes.items piece failing.items }
    {
        MemorySource {
            bytes,
            given: 0,
            piece,
            calls: 0,
            failing,
            faults: 0,
            failed: false,
        }
    }

    /// The bytes that are left.
    pub fn bytes_left(&self) -> &[u8]
        ensures { result.now ≡ self.now.bytes }
    {
        &self.bytes[self.given..]
    }

    /// How many calls there were.
    pub fn calls(&self) -> u64
        ensures { result ≡ self.now.calls }
    {
        self.calls
    }
}

impl Source for MemorySource {
    ghost use Rattle.std.specs.Prelude.{Some};
    ghost use Rattle.gnb_base.specs.Outside.{SourceAt};

    ghost at = { λ s. record { left = Some s.bytes; faults = s.faults; calls = s.calls; failed = s.failed } };

    fn read(&mut self, buf: &mut [u8]) -> Result<usize, Failed>
        ensures bound { ReadsAtMost result buf.new }
        ensures bytes { ReadConsumes (Some self.old.bytes) (Some self.new.bytes) result buf.new }
        ensures faults { CountsFaults self.old.faults self.new.faults result }
        ensures calls { self.new.calls ≡ one_more self.old.calls }
        ensures failed { self.new.failed ≡ is_err result }

        // It fails exactly at the calls that its list names, and else gives as many bytes as it can.
        ensures fails { IsErr result ↔ Contains self.old.failing self.new.calls }
        ensures many { IfOk result (λ n. n ≡ moved self.old (length self.old.bytes) (length buf.old)) }
        ensures gives { IfOk result (λ n. self.new ≡ moved_from self.old (drop n self.old.bytes)) }
        ensures fault { OnErr result (self.new ≡ failed_from self.old) }
    {
        self.calls = self.calls.saturating_add(1);
        self.failed = self.failing.contains(&self.calls);
        if self.failed {
            self.faults = self.faults.saturating_add(1);
            return Err(Failed);
        }
        let rest = &self.bytes[self.given..];
        let count = rest.len().min(self.piece.min(buf.len()));
        buf[..count].copy_from_slice(&rest[..count]);
        self.given += count;
        Ok(count)
    }
}

/// Takes bytes, at most so many in a call.
#[derive(Drop)]
pub struct MemorySink {
    bytes: Vec<u8>,
    piece: usize,
    calls: u64,
    failing: Vec<u64>,
    faults: u64,
    room: usize,
    failed: bool,
}

impl Model for MemorySink {
    ghost use Rattle.gnb_base.specs.InMemory.{SinkInMemory};

    ghost Value = { SinkInMemory };

    ghost use Rattle.std.specs.Prelude.{◌<◌, ◌≤◌, vec_capacity};
    ghost use Rattle.gnb_base.specs.InMemory.{sink_of};

    ghost view = { sink_of };

    ghost invariant = { λ s. (0 < s.piece) × (s.room ≤ vec_capacity s.bytes) };
}

impl MemorySink {
    /// A sink that holds nothing yet, of which a call takes at most `piece`. The calls with the numbers in `failing`,
    /// counted from 1, fail; where it is empty, a call fails only where its bytes find no memory.
    pub fn new(alloc: Global, piece: usize, failing: Vec<u64>) -> MemorySink
        requires { 0 < piece }
        ensures { result ≡ empty_sink piece failing.items 0 }
    {
        MemorySink {
            bytes: Vec::new(alloc),
            piece,
            calls: 0,
            failing,
            faults: 0,
            room: 0,
            failed: false,
        }
    }

    /// The same with room for so many bytes. While they are not used up, no call fails for memory.
    pub fn with_room(
        alloc: Global,
        piece: usize,
        failing: Vec<u64>,
        room: usize,
    ) -> Result<MemorySink, Memory>
        requires { 0 < piece }
        ensures { IfOk result (λ sink. sink ≡ empty_sink piece failing.items room) }
    {
        let bytes = Vec::with_capacity(alloc, room)?;
        Ok(MemorySink {
            bytes,
            piece,
            calls: 0,
            failing,
            faults: 0,
            room,
            failed: false,
        })
    }

    /// The bytes taken.
    pub fn bytes_held(&self) -> &[u8]
        ensures { result.now ≡ self.now.memory.bytes }
    {
        self.bytes.as_slice()
    }

    /// How many calls there were.
    pub fn calls(&self) -> u64
        ensures { result ≡ self.now.memory.calls }
    {
        self.calls
    }
}

impl Sink for MemorySink {
    ghost use Rattle.std.specs.Prelude.{Some};
    ghost use Rattle.gnb_base.specs.Outside.{SinkAt};

    ghost at = { λ s. record { held = Some s.memory.bytes; faults = s.memory.faults; failed = s.memory.failed } };

    fn write(&mut self, piece: &[u8]) -> Result<usize, Failed>
        ensures bound { WritesAtMost result piece.now }
        ensures some { IfOk result (λ n. 0 < length piece.now → 0 < n) }
        ensures bytes { WriteAppends (Some self.old.memory.bytes) (Some self.new.memory.bytes) result piece.now }
        ensures faults { CountsFaults self.old.memory.faults self.new.memory.faults result }
        ensures failed { self.new.memory.failed ≡ is_err result }

        // It fails at the calls that its list names, and at no other while the bytes find room.
        ensures named { Contains self.old.memory.failing self.new.memory.calls → IsErr result }
        ensures only { length self.old.memory.bytes + length piece.now ≤ self.old.room
            → IsErr result → Contains self.old.memory.failing self.new.memory.calls }

        // Else it takes as many bytes as it can.
        ensures many { IfOk result (λ n. n ≡ moved self.old.memory (length piece.now) (length piece.now)) }
        ensures takes { IfOk result (λ n. self.new ≡ sink_moved self.old (self.old.memory.bytes ++ take n piece.now)) }
        ensures fault { OnErr result (self.new ≡ sink_failed self.old) }
    {
        self.calls = self.calls.saturating_add(1);
        let count = piece.len().min(self.piece);
        if self.failing.contains(&self.calls)
            || self.bytes.extend_from_slice(&piece[..count]).is_err()
        {
            self.failed = true;
            self.faults = self.faults.saturating_add(1);
            return Err(Failed);
        }
        self.failed = false;
        Ok(count)
    }
}
