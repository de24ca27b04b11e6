//! Reads values of their JSON texts. Each line of the input is `text MODULE`, the text of a module, or `TYPE JSON`: a JSON text of a
//! type of that module; or `long COUNT TYPE JSON`, where `@` in the JSON text stands for so many octets 00 in hexadecimal. The line is
//! printed with what is answered: the octets of the value, or `no JSON`, `shape PATH` or `range PATH`.
#![tactic(auto)]

ghost use Rattle.std.specs.Prelude.{◌<◌, length};

use aper::{encode, is_value, spelled_length};
use aper_values::value::Value;
use asn1_module::{Module, TypeId, read_module};
use gnb_types::hex::hex_text;
use gnb_types::octets::{Memory, Octets};
use std::alloc::Global;
use std::io;
use values_json::{JsonError, value_from_json};

/// The most octets of a spelling.
const SPELLING_LIMIT: u64 = 131_072;

/// The most octets that are printed.
const LINE_OCTETS: usize = 200;

/// The most octets that `@` stands for.
const COUNT_LIMIT: u64 = 100_000;

fn main(rt: HostRuntime) -> io::Result<()> {
    let mut module: Option<Module> = None;
    for line in rt.lines(rt.alloc()) {
        let line = line?;
        match line.as_str().split_once(' ') {
            None => {}
            Some(("text", text)) => module = module_of(rt.alloc(), text.as_bytes()),
            Some((first, row)) => {
                print!(rt; "{first} {row} : ")?;
                answer_row(&rt, &module, first, row)?;
            }
        }
    }
    Ok(())
}

/// The module of a text.
fn module_of(alloc: Global, text: &[u8]) -> Option<Module> {
    match read_module(alloc, text) {
        Ok((module, _)) => Some(module),
        Err(_) => None,
    }
}

/// Answers a row: a type's name and a text, or a row whose text has a long part.
fn answer_row(rt: &HostRuntime, module: &Option<Module>, first: &str, row: &str) -> io::Result<()> {
    if first == "long" {
        return answer_long(rt, module, row);
    }
    answer_in(rt, module, first, row.as_bytes())
}

/// Answers a row whose text has a long part.
fn answer_long(rt: &HostRuntime, module: &Option<Module>, row: &str) -> io::Result<()> {
    let Some((count, row)) = row.split_once(' ') else {
        return println!(rt; "no row");
    };
    let Some((name, text)) = row.split_once(' ') else {
        return println!(rt; "no row");
    };
    match long_text(rt.alloc(), text.as_bytes(), count.parse().unwrap_or(0)) {
        Ok(text) => answer_in(rt, module, name, text.as_slice()),
        Err(_) => println!(rt; "out of memory"),
    }
}

/// The text with so many octets 00, in hexadecimal, in place of each `@`.
fn long_text(alloc: Global, text: &[u8], count: u64) -> Result<Octets, Memory> {
    let mut long = Octets::new(alloc);
    for byte in text {
        match byte {
            b'@' => append_zeros(&mut long, count.min(COUNT_LIMIT))?,
            other => long.push(*other)?,
        }
    }
    Ok(long)
}

/// Puts so many octets 00, in hexadecimal, behind a text.
fn append_zeros(text: &mut Octets, count: u64) -> Result<(), Memory> {
    for _ in 0..count {
        text.append(b"00")?;
    }
    Ok(())
}

/// Answers a text of a type of a module.
fn answer_in(rt: &HostRuntime, module: &Option<Module>, name: &str, text: &[u8]) -> io::Result<()> {
    match module {
        Some(module) => answer_named(rt, module, name, text),
        None => println!(rt; "no module"),
    }
}

/// Answers a text of the type with this name.
fn answer_named(rt: &HostRuntime, module: &Module, name: &str, text: &[u8]) -> io::Result<()> {
    match module.find(name.as_bytes()) {
        Some(id) => answer(rt, module, id, text),
        None => println!(rt; "no type"),
    }
}

/// Answers a text of this type.
fn answer(rt: &HostRuntime, module: &Module, id: TypeId, text: &[u8]) -> io::Result<()>
    requires { id.number < length module.now.nodes }
{
    match value_from_json(rt.alloc(), module, id, text) {
        Ok(value) => report_value(rt, module, id, &value),
        Err(JsonError::NotJson) => println!(rt; "no JSON"),
        Err(JsonError::Shape { path }) => report_fault(rt, "shape", path.as_slice()),
        Err(JsonError::Range { path }) => report_fault(rt, "range", path.as_slice()),
        Err(JsonError::Memory) => println!(rt; "out of memory"),
    }
}

/// Reports a value by its octets: how many, where they are more than a line should have.
fn report_value(rt: &HostRuntime, module: &Module, id: TypeId, value: &Value) -> io::Result<()>
    requires { id.number < length module.now.nodes }
{
    if !is_value(module, id, value) {
        return println!(rt; "no value");
    }
    if spelled_length(module, id, value) > SPELLING_LIMIT {
        return println!(rt; "too long");
    }
    match encode(rt.alloc(), module, id, value) {
        Ok(octets) => report_octets(rt, octets.as_slice()),
        Err(_) => println!(rt; "out of memory"),
    }
}

/// Reports octets in hexadecimal, or how many they are.
fn report_octets(rt: &HostRuntime, octets: &[u8]) -> io::Result<()> {
    let count = octets.len();
    if count > LINE_OCTETS {
        return println!(rt; "{count} octets");
    }
    match hex_text(rt.alloc(), octets) {
        Ok(text) => {
            print_text(rt, text.as_slice())?;
            println!(rt; "")
        }
        Err(_) => println!(rt; "out of memory"),
    }
}

/// Reports a fault and the way to its member.
fn report_fault(rt: &HostRuntime, fault: &str, path: &[u8]) -> io::Result<()> {
    print!(rt; "{fault} ")?;
    print_text(rt, path)?;
    println!(rt; "")
}

/// Prints a text.
fn print_text(rt: &HostRuntime, text: &[u8]) -> io::Result<()> {
    for octet in text {
        let character = char::from(*octet);
        print!(rt; "{character}")?;
    }
    Ok(())
}
