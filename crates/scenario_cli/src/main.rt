//! The program: runs a script of events over the units of a split base station, or of one
//! unacknowledged bearer, or of one bearer with duplication, and prints every message, packet and delivery; or judges what was printed;
//! or checks an ASN.1 module, or encodes and decodes values of its types.
#![tactic(auto)]

pub mod product;
mod tail;
pub mod top;

use command_defs::Status;
use gnb_base::standard::{StdSink, StdSource};
use plain_words::Call;
use std::alloc::Global;
use std::env;
use std::io::ErrorKind;
use std::process::ExitCode;
use tail::{Tail, TailSink, TailSource};

/// Says in plain words what the status means, with the line that it names where that is kept.
fn explain(
    rt: &impl Eprint,
    alloc: Global,
    words: &[String],
    read: &Tail,
    written: &Tail,
    status: Status,
) {
    if status.code == 0 {
        return;
    }
    let named = read.line(alloc, status.place);
    let last = written.before_last(alloc);
    let line = match &named {
        Some(line) => line.as_slice(),
        None => b"".as_slice(),
    };
    let written = match &last {
        Some(line) => line.as_slice(),
        None => b"".as_slice(),
    };
    let call = Call {
        words,
        has_line: named.is_some(),
        line,
        written,
    };
    let _ = plain_words::explain(rt, &call, status);
}

/// Reads the words after the program's name, and calls the program with standard input and output.
fn main(rt: HostRuntime) -> ExitCode {
    let alloc = rt.alloc();
    let mut words = Vec::new(alloc);
    match env::args(&rt) {
        Ok(arguments) => {
            for word in arguments.skip(1) {
                if words.push(word).is_err() {
                    return ExitCode::from(9);
                }
            }
        }
        // A word that isn't UTF-8 is in no form of the program, and so are no words.
        Err(error) if error.kind() == ErrorKind::InvalidData => {}
        Err(_) => return ExitCode::from(9),
    }
    let mut input = TailSource {
        source: StdSource::new(rt.stdin()),
        tail: Tail::new(alloc),
    };
    let mut output = TailSink {
        sink: StdSink::new(rt.stdout()),
        tail: Tail::new(alloc),
    };
    let status = product::base_station(alloc, words.as_slice(), &mut input, &mut output);
    explain(
        &rt,
        alloc,
        words.as_slice(),
        &input.tail,
        &output.tail,
        status,
    );
    ExitCode::from(status.code)
}
