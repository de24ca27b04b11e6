//! What checking a module came to is written.

ghost use Rattle.std.specs.Prelude.{◌≡◌, IfOk};
ghost use Rattle.command_defs.specs.Ends.{StopsAtLine};
ghost use Rattle.command_defs.specs.Outside.{outside};
ghost use Rattle.commands.specs.command_check.Report.{end_of as end_of_result, module_line as module_text, report_of as report_text, check_text, check_status, CheckMeets};
ghost use Rattle.commands.specs.command_check.Whole.{ChecksWholly};

use crate::command_check::end::CheckEnd;
use crate::command_check::input::CheckedModule;
use crate::command_check::module::check_module;
use crate::command_output::{end_of_input, fault_text, text_of, write_all};
use crate::input_module::ModuleStop;
use command_defs::CommonEnd;
use gnb_base::outside::{Sink, Source};
use gnb_types::octets::{Memory, Octets};
use std::alloc::Global;

/// How a check ends that came to this.
fn end_of(answer: &Result<CheckedModule, ModuleStop>) -> CheckEnd
    ensures { result ≡ end_of_result answer.now }
{
    match *answer {
        Ok(_) => CheckEnd::Checked,
        Err(ModuleStop::NoModule { line, reason, .. }) => CheckEnd::NoModule {
            place: line,
            reason,
        },
        Err(ModuleStop::Script { place, reason }) => CheckEnd::Script { place, reason },
        Err(ModuleStop::Input(end)) => CheckEnd::Common(end_of_input(end)),
    }
}

/// The line of a module, with its LF.
fn module_line(alloc: Global, checked: &CheckedModule) -> Result<Octets, Memory>
    ensures { IfOk result (λ text. text ≡ module_text checked.now.name checked.now.types) }
{
    let types = checked.types;
    let count = format!(in alloc; " {types}\n")?;
    let mut text = Octets::from_slice(alloc, b"module ")?;
    text.append(checked.name.as_slice())?;
    text.append(count.as_bytes())?;
    Ok(text)
}

/// The line of a module or of its fault; another end has none.
#[tactic(auto, unfolding(crate::specs::command_check::Report::report_of))]
fn report_of(alloc: Global, answer: &Result<CheckedModule, ModuleStop>) -> Result<Octets, Memory>
    ensures { IfOk result (λ text. text ≡ report_text answer.now) }
{
    match answer {
        Ok(checked) => module_line(alloc, checked),
        Err(
            ModuleStop::NoModule {
                line,
                column,
                reason,
            },
        ) => fault_text(alloc, *line, *column, *reason),
        Err(_) => Ok(Octets::new(alloc)),
    }
}

/// All that is written of an answer.
fn answer_text(alloc: Global, answer: &Result<CheckedModule, ModuleStop>) -> Result<Octets, Memory>
    ensures { IfOk result (λ text. text ≡ check_text answer.now) }
{
    let mut text = report_of(alloc, answer)?;
    if let Some(line) = end_of(answer).last_line() {
        text.append(text_of(alloc, &[line])?.as_slice())?;
    }
    Ok(text)
}

/// Checks a module, and writes what it came to.
pub fn check_input<S: Source, K: Sink>(alloc: Global, input: &mut S, output: &mut K) -> CheckEnd
    ensures meets { CheckMeets (outside (S.at input.old) (K.at output.old))
        (outside (S.at input.new) (K.at output.new)) result }
    ensures near { StopsAtLine (S.at input.old) (S.at input.new) (check_status result) }

    // A whole module is reported, where its bytes are and no call fails, unless memory runs out.
    ensures complete { ChecksWholly (outside (S.at input.old) (K.at output.old))
        (outside (S.at input.new) (K.at output.new)) (check_status result) }
{
    let answer = check_module(alloc, input);
    let Ok(text) = answer_text(alloc, &answer) else {
        return CheckEnd::Common(CommonEnd::Memory);
    };
    match write_all(output, text.as_slice()) {
        Ok(()) => end_of(&answer),
        Err(_) => CheckEnd::Common(CommonEnd::WriteFault),
    }
}
