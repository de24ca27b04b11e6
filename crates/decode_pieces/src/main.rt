//! Decodes octets in pieces. Each line of the input is `text TEXT`, the text of a module, or `module HEX`, the same in hexadecimal; or
//! `TYPE OCTETS SIZES`: octets of a type of that module, and how many of them the pieces have. Octets are `-` for none, else parts between
//! dots, each in hexadecimal, `HEXxCOUNT` for several alike. Sizes stand between commas, `SIZExCOUNT` for several alike. For each of the
//! latter a line tells what is answered to the pieces, `more COUNT` where so many of them are followed by others, and at the end; and
//! behind a bar what is answered to the octets as a whole. Any other line is passed over.
#![tactic(auto)]

ghost use Rattle.std.specs.Prelude.{◌<◌, length};

use aper::path_text;
use aper_decode::DecodeError;
use aper_stream::decoder::{Decoder, Step, decode};
use aper_values::value::Value;
use asn1_module::{Module, TypeId, read_module};
use gnb_types::hex::hex_bytes;
use gnb_types::octets::{Memory, Octets};
use std::alloc::Global;
use std::io;

fn main(rt: HostRuntime) -> io::Result<()> {
    let mut module: Option<Module> = None;
    for line in rt.lines(rt.alloc()) {
        let line = line?;
        match line.as_str().split_once(' ') {
            None => {}
            Some(("text", text)) => module = module_of(rt.alloc(), text.as_bytes()),
            Some(("module", hex)) => module = spelled_module(rt.alloc(), hex),
            Some((name, given)) => answer_in(&rt, &module, name, given)?,
        }
    }
    Ok(())
}

/// The module of a text.
fn module_of(alloc: Global, text: &[u8]) -> Option<Module> {
    match read_module(alloc, text) {
        Ok((module, _)) => Some(module),
        Err(_) => None,
    }
}

/// The module of a text in hexadecimal.
fn spelled_module(alloc: Global, hex: &str) -> Option<Module> {
    match hex_bytes(alloc, hex.as_bytes()) {
        Ok(text) => module_of(alloc, text.as_slice()),
        Err(_) => None,
    }
}

/// Answers octets of a type of a module.
fn answer_in(rt: &HostRuntime, module: &Option<Module>, name: &str, given: &str) -> io::Result<()> {
    let Some(module) = module else {
        return Ok(());
    };
    let Some((octets, sizes)) = given.split_once(' ') else {
        return Ok(());
    };
    let Some(id) = module.find(name.as_bytes()) else {
        return Ok(());
    };
    match octets_of(rt.alloc(), octets) {
        Ok(octets) => answer(rt, module, id, octets.as_slice(), sizes),
        Err(_) => Ok(()),
    }
}

/// The octets of a word.
fn octets_of(alloc: Global, word: &str) -> Result<Octets, Memory> {
    let mut octets = Octets::new(alloc);
    for part in word.split('.') {
        let (hex, count) = counted(part);
        if let Ok(some) = hex_bytes(alloc, hex.as_bytes()) {
            append_again(&mut octets, some.as_slice(), count)?;
        }
    }
    Ok(octets)
}

/// Puts these octets so many times behind others.
fn append_again(octets: &mut Octets, some: &[u8], count: u64) -> Result<(), Memory> {
    for _ in 0..count {
        octets.append(some)?;
    }
    Ok(())
}

/// A word, and how many stand there alike.
fn counted(word: &str) -> (&str, u64) {
    match word.split_once('x') {
        Some((one, count)) => (one, count.parse().unwrap_or(0)),
        None => (word, 1),
    }
}

/// Answers these octets, in pieces and as a whole.
fn answer(
    rt: &HostRuntime,
    module: &Module,
    id: TypeId,
    octets: &[u8],
    sizes: &str,
) -> io::Result<()>
    requires { id.number < length module.now.nodes }
{
    let mut decoder = Decoder::new(rt.alloc(), module, id);
    feed(rt, &mut decoder, octets, sizes)?;
    report_end(rt, decoder.finish())?;
    print!(rt; " | ")?;
    report_end(rt, decode(rt.alloc(), module, id, octets))?;
    println!(rt; "")
}

/// Feeds octets in pieces of these sizes.
fn feed(rt: &HostRuntime, decoder: &mut Decoder, octets: &[u8], sizes: &str) -> io::Result<()> {
    let mut left = octets;
    let mut awaited = 0u64;
    for word in sizes.split(',') {
        let (size, count) = counted(word);
        let size = size.parse().unwrap_or(0);
        for _ in 0..count {
            let (piece, others) = left.split_at(left.len().min(size));
            left = others;
            report_step(rt, &mut awaited, decoder.feed(piece))?;
        }
    }
    report_awaited(rt, &mut awaited)
}

/// Reports what is answered to a piece, but that more are awaited, which is counted.
fn report_step(
    rt: &HostRuntime,
    awaited: &mut u64,
    answer: Result<Step, DecodeError>,
) -> io::Result<()> {
    match answer {
        Ok(Step::More) => {
            *awaited = awaited.saturating_add(1);
            Ok(())
        }
        Ok(Step::Done { used }) => {
            report_awaited(rt, awaited)?;
            print!(rt; "done {used}; ")
        }
        Err(error) => {
            report_awaited(rt, awaited)?;
            report(rt, &error)?;
            print!(rt; "; ")
        }
    }
}

/// Reports how many pieces were followed by others, if any were.
fn report_awaited(rt: &HostRuntime, awaited: &mut u64) -> io::Result<()> {
    let count = std::mem::take(awaited);
    if count > 0 {
        print!(rt; "more {count}; ")?;
    }
    Ok(())
}

/// Reports what is answered at the end.
fn report_end(rt: &HostRuntime, answer: Result<Value, DecodeError>) -> io::Result<()> {
    match answer {
        Ok(_) => print!(rt; "value"),
        Err(error) => report(rt, &error),
    }
}

/// Reports an error: of a refusal the bit, the reason's number and the way.
fn report(rt: &HostRuntime, error: &DecodeError) -> io::Result<()> {
    match error {
        DecodeError::Memory => print!(rt; "out of memory"),
        DecodeError::Refused { bit, reason, path } => {
            let number = *reason as u32;
            print!(rt; "wrong {bit} {number} ")?;
            match path_text(rt.alloc(), path.as_slice()) {
                Ok(text) => report_text(rt, text.as_slice()),
                Err(_) => print!(rt; "out of memory"),
            }
        }
    }
}

/// Reports a text.
fn report_text(rt: &HostRuntime, text: &[u8]) -> io::Result<()> {
    for octet in text {
        let character = char::from(*octet);
        print!(rt; "{character}")?;
    }
    Ok(())
}
