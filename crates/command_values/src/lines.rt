//! Lines are answered one by one: each answer is written before the source is read again.

ghost use Rattle.std.specs.Prelude.{◌<◌, ◌≡◌, length, IfOk, OnOk, OnErr};
ghost use Rattle.gnb_base.specs.Outside.{SinkAt};
ghost use Rattle.commands.specs.command_output.Writes.{WritesFront};
ghost use Rattle.command_values.specs.inside.Answered.{AnswerMeets};
ghost use Rattle.command_values.specs.inside.Turns.{run_at, with_feed, once_written, WriteMeets, TurnMeets, Waits, Finishing, Continues};

use crate::answer::{Unanswered, answer};
use crate::end::{Stop, ValuesEnd};
use crate::way::Way;
use asn1_module::{Module, TypeId};
use command_defs::CommonEnd;
use commands::command_output::write_all;
use commands::input_lines::next_line;
use gnb_base::lines::{Line, LineReader};
use gnb_base::outside::{Failed, Sink, Source};
use gnb_types::octets::{Memory, Octets};
use std::alloc::Global;

/// Which way values go, and the type whose values they are.
#[derive(Clone, Copy)]
pub struct Task<'m> {
    pub way: Way,
    pub module: &'m Module,
    pub id: TypeId,
}

/// So many octets of answers wait at most, with the last one whole.
const WAITING_LIMIT: usize = 65_536;

/// A text with an LF after it.
fn fed(text: Octets) -> Result<Octets, Memory>
    ensures { IfOk result (λ line. line ≡ with_feed text) }
{
    let mut text = text;
    text.push(b'\n')?;
    Ok(text)
}

/// Answers a line; the answer waits after those before it.
fn put_answer(
    alloc: Global,
    task: Task<'_>,
    line: &Line,
    waiting: &mut Octets,
) -> Result<(), ValuesEnd>
    requires { task.id.number < length task.module.now.nodes }
    ensures { (sink : SinkAt) → WriteMeets task.entry (once_written sink waiting.old)
        (once_written sink waiting.new) line.now result }
{
    let text = match answer(alloc, task.way, task.module, task.id, line.text.as_slice()) {
        Ok(text) => text,
        Err(Unanswered::Wrong(wrong)) => {
            return Err(ValuesEnd::Stopped(Stop::Value {
                place: line.number,
                wrong,
            }));
        }
        Err(Unanswered::Memory) => return Err(ValuesEnd::Common(CommonEnd::Memory)),
    };
    let Ok(text) = fed(text) else {
        return Err(ValuesEnd::Common(CommonEnd::Memory));
    };
    match waiting.append(text.as_slice()) {
        Ok(()) => Ok(()),
        Err(_) => Err(ValuesEnd::Common(CommonEnd::Memory)),
    }
}

/// Takes the next line and answers it; whether there was one.
fn answer_line<S: Source>(
    alloc: Global,
    task: Task<'_>,
    reader: &mut LineReader,
    input: &mut S,
    waiting: &mut Octets,
) -> Result<bool, ValuesEnd>
    requires { task.id.number < length task.module.now.nodes }
    ensures { (sink : SinkAt) → TurnMeets task.entry
        (run_at reader.old (S.at input.old) (once_written sink waiting.old))
        (run_at reader.new (S.at input.new) (once_written sink waiting.new)) result }
{
    let Some(line) = next_line(reader, input)? else {
        return Ok(false);
    };
    put_answer(alloc, task, &line, waiting)?;
    Ok(true)
}

/// Writes the answers that wait, unless the next line is kept whole. After an error what waits is unspecified.
fn write_before_read<K: Sink>(
    alloc: Global,
    reader: &LineReader,
    output: &mut K,
    waiting: &mut Octets,
) -> Result<(), Failed>
    ensures ok { OnOk result
        (Waits reader.now.kept (K.at output.old) (K.at output.new) (waiting.old, waiting.new)) }
    ensures front { OnErr result (WritesFront (K.at output.old) (K.at output.new) waiting.old) }
{
    if reader.keeps_line() && waiting.len() < WAITING_LIMIT {
        return Ok(());
    }
    write_all(output, waiting.as_slice())?;
    *waiting = Octets::new(alloc);
    Ok(())
}

/// Writes the answers that wait at an end, if any do; how it ended after that.
fn finish_answers<K: Sink>(output: &mut K, waiting: &Octets, end: ValuesEnd) -> ValuesEnd
    ensures { Finishing (K.at output.old) (K.at output.new) waiting.now end result }
{
    if waiting.is_empty() {
        return end;
    }
    match write_all(output, waiting.as_slice()) {
        Ok(()) => end,
        Err(_) => ValuesEnd::Common(CommonEnd::WriteFault),
    }
}

/// Answers each line up to the end of the input. Answers wait while further whole lines are kept, and are written before the source
/// is read again. What is written at the end is left to the caller.
pub fn answer_lines<S: Source, K: Sink>(
    alloc: Global,
    task: Task<'_>,
    reader: &mut LineReader,
    input: &mut S,
    output: &mut K,
) -> ValuesEnd
    requires { task.id.number < length task.module.now.nodes }
    ensures { Continues task.entry (run_at reader.old (S.at input.old) (K.at output.old))
        (run_at reader.new (S.at input.new) (K.at output.new)) result }
{
    let mut waiting = Octets::new(alloc);
    loop {
        match write_before_read(alloc, reader, output, &mut waiting) {
            Ok(()) => {}
            Err(_) => return ValuesEnd::Common(CommonEnd::WriteFault),
        }
        match answer_line(alloc, task, reader, input, &mut waiting) {
            Ok(true) => {}
            Ok(false) => return finish_answers(output, &waiting, ValuesEnd::Done),
            Err(end) => return finish_answers(output, &waiting, end),
        }
    }
}
