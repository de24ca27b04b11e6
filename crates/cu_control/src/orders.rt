//! Orders of the script.

ghost use Rattle.std.specs.Prelude.{◌≡◌};
ghost use Rattle.unit_defs.specs.CuCpRecords.{terminal_of};
ghost use Rattle.unit_defs.specs.CuCpRows.{attach, handover, cancel, release};
ghost use Rattle.unit_defs.specs.CuCp.{at_of, by_row, ordered};
ghost use Rattle.unit_defs.specs.octet_defs.Codec.{octet_way};
ghost use Rattle.unit_messages.specs.steps.Steps.{step_after, IsStep};

use crate::asked::at_of;
use crate::carrying::carry_made;
use cu_cp_records::control_records::ControlRecord;
use cu_cp_rows::control_rows as rows;
use gnb_types::inputs::Order;
use gnb_types::names::UeId;
use gnb_types::outputs::{Output, Outputs};
use gnb_types::plans::Plan;
use gnb_types::reasons::DropReason;
use std::alloc::Global;
use unit_messages::MessageCodec;
use unit_messages::steps::StepError;
use unit_requests::put;

fn attach<C: MessageCodec>(
    record: &mut ControlRecord,
    alloc: Global,
    codec: &C,
    plan: Plan,
    outputs: &mut Outputs,
) -> Result<(), StepError>
    ensures { IsStep
        (step_after outputs.old
        (by_row (octet_way C.codec) plan.ue
        (attach (octet_way C.codec) (at_of record.old plan.ue) plan
        (terminal_of record.old plan.ue)) record.old))
        outputs.new record.new result }
{
    let terminal = record.terminal(alloc, plan.ue)?;
    let at = at_of(record, alloc, codec, plan.ue);
    let row = rows::attach(&at, plan, &terminal);
    drop(terminal);
    carry_made(record, alloc, codec, plan.ue, row, outputs)
}

fn handover<C: MessageCodec>(
    record: &mut ControlRecord,
    alloc: Global,
    codec: &C,
    goal: Plan,
    outputs: &mut Outputs,
) -> Result<(), StepError>
    ensures { IsStep
        (step_after outputs.old
        (by_row (octet_way C.codec) goal.ue
        (handover (octet_way C.codec) (at_of record.old goal.ue) goal
        (terminal_of record.old goal.ue)) record.old))
        outputs.new record.new result }
{
    let terminal = record.terminal(alloc, goal.ue)?;
    let at = at_of(record, alloc, codec, goal.ue);
    let row = rows::handover(&at, goal, &terminal);
    drop(terminal);
    carry_made(record, alloc, codec, goal.ue, row, outputs)
}

fn cancel<C: MessageCodec>(
    record: &mut ControlRecord,
    alloc: Global,
    codec: &C,
    ue: UeId,
    outputs: &mut Outputs,
) -> Result<(), StepError>
    ensures { IsStep
        (step_after outputs.old
        (by_row (octet_way C.codec) ue
        (cancel (octet_way C.codec) (at_of record.old ue) (terminal_of record.old ue)) record.old))
        outputs.new record.new result }
{
    let terminal = record.terminal(alloc, ue)?;
    let at = at_of(record, alloc, codec, ue);
    let row = rows::cancel(&at, &terminal);
    drop(terminal);
    carry_made(record, alloc, codec, ue, row, outputs)
}

fn release<C: MessageCodec>(
    record: &mut ControlRecord,
    alloc: Global,
    codec: &C,
    ue: UeId,
    outputs: &mut Outputs,
) -> Result<(), StepError>
    ensures { IsStep
        (step_after outputs.old
        (by_row (octet_way C.codec) ue
        (release (octet_way C.codec) (at_of record.old ue) (terminal_of record.old ue)) record.old))
        outputs.new record.new result }
{
    let terminal = record.terminal(alloc, ue)?;
    let at = at_of(record, alloc, codec, ue);
    let row = rows::release(&at, &terminal);
    drop(terminal);
    carry_made(record, alloc, codec, ue, row, outputs)
}

/// An order: one that isn't for a CU-CP is unexpected.
pub(crate) fn ordered<C: MessageCodec>(
    record: &mut ControlRecord,
    alloc: Global,
    codec: &C,
    order: Order,
    outputs: &mut Outputs,
) -> Result<(), StepError>
    ensures { IsStep
        (step_after outputs.old (ordered (octet_way C.codec) order record.old))
        outputs.new record.new result }
{
    match order {
        Order::Attach(plan) => attach(record, alloc, codec, plan, outputs),
        Order::Handover(goal) => handover(record, alloc, codec, goal, outputs),
        Order::Cancel(ue) => cancel(record, alloc, codec, ue, outputs),
        Order::Release(ue) => release(record, alloc, codec, ue, outputs),
        Order::Start | Order::Arrive(_) | Order::Return(_) | Order::Fail(_) | Order::Poll(..) => {
            put(outputs, Output::Drop(DropReason::Unexpected))
        }
    }
}
