//! A tick: open requests again, or what expires; then the commands.

ghost use Rattle.std.specs.Prelude.{◌≡◌, [], map};
ghost use Rattle.unit_defs.specs.CuCpRecords.{terminal_of, stays};
ghost use Rattle.unit_defs.specs.CuCp.{at_of, by_row, expired_on, command_by, command_on, command_each, due_one, due_each, ues_of, tick};
ghost use Rattle.unit_defs.specs.octet_defs.Codec.{octet_way};
ghost use Rattle.cu_cp_records.specs.control_actions.Rows.{RowGives};
ghost use Rattle.unit_messages.specs.steps.Steps.{step_after, IsStep};
ghost use Rattle.cu_control.specs.inside.Dues.{due_in};

use crate::asked::at_of;
use crate::carrying::carry_made;
use cu_cp_records::control_actions::actions::Actions;
use cu_cp_records::control_actions::{Row, Scope};
use cu_cp_records::control_contexts::{Context, Terminal};
use cu_cp_records::control_records::ControlRecord;
use cu_cp_rows::control_rows::{command, handover_expires};
use gnb_types::items::Items;
use gnb_types::names::UeId;
use gnb_types::octets::Octets;
use gnb_types::outputs::{Output, Outputs};
use std::alloc::Global;
use transactions::caller::Due;
use unit_defs::StateName;
use unit_messages::MessageCodec;
use unit_messages::steps::StepError;
use unit_requests::put;

/// A row that says nothing, and keeps all.
fn keeps_all<C>(at: &Scope<'_, C>, terminal: &Terminal) -> Result<Row, StepError>
    ensures { RowGives (stays terminal.now []) result }
{
    let actions: Actions = Items::new(at.alloc);
    let row = Row::stays(at.alloc, terminal, actions)?;
    Ok(row)
}

fn expired_on<C: MessageCodec>(at: &Scope<'_, C>, terminal: &Terminal) -> Result<Row, StepError>
    ensures { RowGives
        (expired_on (octet_way C.codec) at.now terminal.now terminal.now.context) result }
{
    match &terminal.context {
        Some(context) => handover_expires(at, terminal, context),
        None => keeps_all(at, terminal),
    }
}

fn expired<C: MessageCodec>(
    record: &mut ControlRecord,
    alloc: Global,
    codec: &C,
    ue: UeId,
    outputs: &mut Outputs,
) -> Result<(), StepError>
    ensures { IsStep
        (step_after outputs.old
        (by_row (octet_way C.codec) ue
        (expired_on (octet_way C.codec) (at_of record.old ue) (terminal_of record.old ue)
        (terminal_of record.old ue).context) record.old))
        outputs.new record.new result }
{
    let terminal = record.terminal(alloc, ue)?;
    let at = at_of(record, alloc, codec, ue);
    let row = expired_on(&at, &terminal);
    drop(terminal);
    carry_made(record, alloc, codec, ue, row, outputs)
}

/// What is due of one request: it is put again, or it expires.
fn due_one<C: MessageCodec>(
    record: &mut ControlRecord,
    alloc: Global,
    codec: &C,
    due: &Due,
    outputs: &mut Outputs,
) -> Result<(), StepError>
    ensures { IsStep
        (step_after outputs.old (due_one (octet_way C.codec) record.old (due_in due.now)))
        outputs.new record.new result }
{
    match due {
        Due::Repeat { channel, bytes } => {
            let bytes = Octets::from_slice(alloc, bytes.as_slice())?;
            put(
                outputs,
                Output::Control {
                    to: channel.peer,
                    ue: channel.ue,
                    bytes,
                },
            )
        }
        Due::Expired { channel } => expired(record, alloc, codec, UeId(channel.ue), outputs),
    }
}

fn due_each<C: MessageCodec>(
    record: &mut ControlRecord,
    alloc: Global,
    codec: &C,
    dues: &[Due],
    outputs: &mut Outputs,
) -> Result<(), StepError>
    ensures { IsStep
        (step_after outputs.old (due_each (octet_way C.codec) (map due_in dues.now) record.old))
        outputs.new record.new result }
{
    for due in dues {
        due_one(record, alloc, codec, due, outputs)?;
    }
    Ok(())
}

fn command_by<C: MessageCodec>(
    at: &Scope<'_, C>,
    terminal: &Terminal,
    context: &Context,
) -> Result<Row, StepError>
    ensures { RowGives
        (command_by (octet_way C.codec) at.now terminal.now context.now context.now.state
        context.now.attempt) result }
{
    match context.state {
        StateName::Frozen | StateName::Commanded => command_of(at, terminal, context),
        StateName::Idle
        | StateName::Attaching
        | StateName::Preparing
        | StateName::Prepared
        | StateName::Returning
        | StateName::Completing
        | StateName::Offered
        | StateName::Ready
        | StateName::Arrived
        | StateName::Serving => keeps_all(at, terminal),
    }
}

fn command_of<C: MessageCodec>(
    at: &Scope<'_, C>,
    terminal: &Terminal,
    context: &Context,
) -> Result<Row, StepError>
    ensures { RowGives
        (command_by (octet_way C.codec) at.now terminal.now context.now StateName.Frozen
        context.now.attempt) result }
{
    let Some(attempt) = &context.attempt else {
        return keeps_all(at, terminal);
    };
    command(at, terminal, context, attempt.copy(at.alloc)?)
}

fn command_on<C: MessageCodec>(at: &Scope<'_, C>, terminal: &Terminal) -> Result<Row, StepError>
    ensures { RowGives
        (command_on (octet_way C.codec) at.now terminal.now terminal.now.context) result }
{
    match &terminal.context {
        Some(context) => command_by(at, terminal, context),
        None => keeps_all(at, terminal),
    }
}

fn command_each<C: MessageCodec>(
    record: &mut ControlRecord,
    alloc: Global,
    codec: &C,
    ues: &[UeId],
    outputs: &mut Outputs,
) -> Result<(), StepError>
    ensures { IsStep
        (step_after outputs.old (command_each (octet_way C.codec) ues.now record.old))
        outputs.new record.new result }
{
    for ue in ues {
        commanded(record, alloc, codec, *ue, outputs)?;
    }
    Ok(())
}

fn commanded<C: MessageCodec>(
    record: &mut ControlRecord,
    alloc: Global,
    codec: &C,
    ue: UeId,
    outputs: &mut Outputs,
) -> Result<(), StepError>
    ensures { IsStep
        (step_after outputs.old
        (by_row (octet_way C.codec) ue
        (command_on (octet_way C.codec) (at_of record.old ue) (terminal_of record.old ue)
        (terminal_of record.old ue).context) record.old))
        outputs.new record.new result }
{
    let terminal = record.terminal(alloc, ue)?;
    let at = at_of(record, alloc, codec, ue);
    let row = command_on(&at, &terminal);
    drop(terminal);
    carry_made(record, alloc, codec, ue, row, outputs)
}

/// A tick.
#[tactic(auto, unfolding(unit_defs::specs::CuCp::tick))]
pub(crate) fn tick<C: MessageCodec>(
    record: &mut ControlRecord,
    alloc: Global,
    codec: &C,
    outputs: &mut Outputs,
) -> Result<(), StepError>
    ensures { IsStep
        (step_after outputs.old (tick (octet_way C.codec) record.old))
        outputs.new record.new result }
{
    let due = record.requests.tick(alloc)?;
    due_each(record, alloc, codec, due.as_slice(), outputs)?;
    let ues = record.ues(alloc)?;
    command_each(record, alloc, codec, ues.as_slice(), outputs)
}
