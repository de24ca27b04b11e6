//! Vectors from outside, and each public call once.

ghost use Rattle.std.specs.Prelude.{◌<◌};

use gnb_base::lines::{INPUT_LIMIT, Line, LineReader, ReadError};
use gnb_base::memory::{MemorySink, MemorySource};
use gnb_base::outside::{Failed, Sink, Source};
use gnb_base::standard::{StdSink, StdSource};
use gnb_types::octets::{Memory, Octets};
use std::alloc::Global;

fn source_of(
    alloc: Global,
    input: &[u8],
    piece: usize,
    failing: &[u64],
) -> Result<MemorySource, Memory>
    requires { 0 < piece }
{
    let input = Vec::from_slice(alloc, input)?;
    let failing = Vec::from_slice(alloc, failing)?;
    Ok(MemorySource::new(input, piece, failing))
}

/// Writes a line after its number and a colon and before a full stop.
fn write_line(written: &mut Octets, line: &Line) -> Result<(), Memory> {
    written.push(b'0' + (line.number % 10) as u8)?;
    written.push(b':')?;
    written.append(line.text.as_slice())?;
    written.push(b'.')
}

/// Writes what a reader hands out next, `!` for a failed read, and answers whether that wasn't the end.
fn write_next(
    reader: &mut LineReader,
    source: &mut MemorySource,
    written: &mut Octets,
) -> Result<bool, Memory> {
    match reader.next(source) {
        Ok(Some(line)) => {
            let wrote = write_line(written, &line);
            drop(line);
            wrote?;
            Ok(true)
        }
        Ok(None) => Ok(false),
        Err(ReadError::ReadFault) => {
            written.push(b'!')?;
            Ok(true)
        }
        Err(_) => Err(Memory::told()),
    }
}

fn write_all(
    reader: &mut LineReader,
    source: &mut MemorySource,
    written: &mut Octets,
) -> Result<(), Memory> {
    for _ in 0..20 {
        if !write_next(reader, source, written)? {
            return Ok(());
        }
    }
    Ok(())
}

fn is_end(read: &Result<Option<Line>, ReadError>) -> bool {
    matches!(read, Ok(None))
}

/// Whether a reader hands out an input of so many bytes as this, and nothing more.
fn hands_out(
    reader: &mut LineReader,
    source: &mut MemorySource,
    length: usize,
    wanted: &[u8],
    written: &mut Octets,
) -> Result<bool, Memory> {
    write_all(reader, source, written)?;
    let is_read = reader.read_so_far() == length as u64 && is_end(&reader.next(source));
    Ok(is_read && written.as_slice() == wanted)
}

fn is_handed_out(
    alloc: Global,
    input: &[u8],
    piece: usize,
    failing: &[u64],
    wanted: &[u8],
) -> Result<bool, Memory>
    requires { 0 < piece }
{
    let mut source = source_of(alloc, input, piece, failing)?;
    let mut reader = LineReader::new(alloc)?;
    let mut written = Octets::new(alloc);
    hands_out(&mut reader, &mut source, input.len(), wanted, &mut written)
}

/// An input, the bytes of a piece, the numbers of the reads that fail, and what is handed out.
const PIECES: [(&str, usize, &[u64], &[u8]); 9] = [
    ("", 1, &[], b""),
    ("\n", 1, &[], b"1:."),
    ("one\n\ntwo", 1, &[], b"1:one.2:.3:two."),
    ("one\n\ntwo", 4096, &[], b"1:one.2:.3:two."),
    ("one\n\ntwo\n", 3, &[], b"1:one.2:.3:two."),
    ("one\ntwo", 1, &[1], b"!1:one.2:two."),
    ("one\ntwo", 1, &[3, 7], b"!1:one.!2:two."),
    ("one\ntwo\nthree", 5, &[2, 3], b"1:one.!!2:two.3:three."),
    ("one\ntwo\nthree", 4096, &[2], b"1:one.2:two.!3:three."),
];

#[test]
fn lines_in_pieces(rt: HostRuntime) {
    for &(input, piece, failing, wanted) in &PIECES {
        assert!(rt; piece > 0);
        let handed = is_handed_out(rt.alloc(), input.as_bytes(), piece, failing, wanted);
        assert!(rt; handed == Ok(true), "{input} by {piece}");
    }
}

fn has_length(read: &Result<Option<Line>, ReadError>, length: usize) -> bool {
    matches!(read, Ok(Some(line)) if line.text.len() == length)
}

fn is_too_long(read: &Result<Option<Line>, ReadError>) -> bool {
    matches!(read, Err(ReadError::TooLong))
}

fn reads_to_limit(reader: &mut LineReader, source: &mut MemorySource) -> bool {
    has_length(&reader.next(source), 0)
        && has_length(&reader.next(source), 16_777_215)
        && is_end(&reader.next(source))
}

fn reads_past_limit(reader: &mut LineReader, source: &mut MemorySource) -> bool {
    has_length(&reader.next(source), 0)
        && is_too_long(&reader.next(source))
        && is_too_long(&reader.next(source))
        && reader.read_so_far() == 16_777_217
}

fn is_within(alloc: Global, input: Vec<u8>) -> Result<bool, Memory> {
    let mut reader = LineReader::new(alloc)?;
    let mut source = MemorySource::new(input, 4096, Vec::new(alloc));
    Ok(reads_to_limit(&mut reader, &mut source))
}

fn is_past(alloc: Global, input: Vec<u8>) -> Result<bool, Memory> {
    let mut reader = LineReader::new(alloc)?;
    let mut source = MemorySource::new(input, 4096, Vec::new(alloc));
    Ok(reads_past_limit(&mut reader, &mut source))
}

fn is_line(read: &Result<Option<Line>, ReadError>, text: &[u8]) -> bool {
    matches!(read, Ok(Some(line)) if line.text.as_slice() == text)
}

fn hands_out_what_it_keeps(reader: &mut LineReader, source: &mut MemorySource) -> bool {
    !reader.keeps_line()
        && is_line(&reader.next(source), b"one")
        && reader.keeps_line()
        && is_line(&reader.next(source), b"two")
        && !reader.keeps_line()
}

/// A whole line that is kept is known before it is handed out; what is left of a line is none.
#[test]
fn a_line_that_is_kept(rt: HostRuntime) -> Result<(), Memory> {
    let mut source = source_of(rt.alloc(), b"one\ntwo\nthr", 16, &[])?;
    let mut reader = LineReader::new(rt.alloc())?;
    assert!(rt; hands_out_what_it_keeps(&mut reader, &mut source));
    Ok(())
}

/// An empty line, and one that takes the rest of an input that is as long as it may be.
fn longest(alloc: Global) -> Result<Vec<u8>, Memory> {
    let mut input = vec![in alloc; b'x'; INPUT_LIMIT as usize]?;
    input[0] = b'\n';
    Ok(input)
}

/// The byte after the limit is one too many, and the lines before it were handed out.
#[test]
fn a_byte_too_many(rt: HostRuntime) -> Result<(), Memory> {
    let input = longest(rt.alloc())?;
    assert!(rt; is_within(rt.alloc(), input)?);
    let mut input = longest(rt.alloc())?;
    input.push(b'\n')?;
    assert!(rt; is_past(rt.alloc(), input)?);
    Ok(())
}

/// The second write fails.
fn takes_three(sink: &mut MemorySink) -> bool {
    sink.write(b"abc") == Ok(2)
        && sink.write(b"c") == Err(Failed)
        && sink.write(b"c") == Ok(1)
        && sink.bytes_held() == b"abc".as_slice()
        && sink.calls() == 3
}

fn takes_with_room(alloc: Global, room: usize) -> Result<bool, Memory> {
    let failing = vec![in alloc; 2]?;
    let mut sink = MemorySink::with_room(alloc, 2, failing, room)?;
    Ok(takes_three(&mut sink))
}

#[test]
fn sinks_in_memory(rt: HostRuntime) {
    assert!(rt; takes_with_room(rt.alloc(), 0) == Ok(true));
    assert!(rt; takes_with_room(rt.alloc(), 3) == Ok(true));
    let mut sink = MemorySink::new(rt.alloc(), 2, Vec::new(rt.alloc()));
    assert!(rt; sink.write(b"abc") == Ok(2));
}

#[test]
fn standard_sources(rt: HostRuntime) {
    let mut buffer = [0; 2];
    let mut source = StdSource::new(b"abc".as_slice());
    assert!(rt; source.read(&mut buffer) == Ok(2));
    assert!(rt; source.read(&mut buffer) == Ok(1));
    assert!(rt; source.read(&mut buffer) == Ok(0));
    assert!(rt; source.faults == 0 && source.calls == 3);
}

#[test]
fn standard_sinks(rt: HostRuntime) {
    let mut room = [0; 2];
    let mut sink = StdSink::new(room.as_mut_slice());
    assert!(rt; sink.write(b"abc") == Ok(2));
    assert!(rt; !sink.failed);
    assert!(rt; sink.write(b"c") == Err(Failed));
    assert!(rt; sink.failed && sink.faults == 1);
    assert!(rt; sink.write(b"") == Ok(0));
    assert!(rt; !sink.failed);
}
