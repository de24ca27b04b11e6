//! What the attempt of a terminal awaits.

ghost use Rattle.std.specs.Prelude.{◌≡◌, OnOk, if◌then◌else◌};
ghost use Rattle.unit_defs.specs.CuCpRecords.{awaiting, begun, on_attempt, on_context, with_attempt};

use cu_cp_records::control_contexts::{Attempt, Context};
use cu_cp_records::control_records::ControlRecord;
use gnb_types::items::Memory;
use gnb_types::names::{NodeId, UeId};
use gnb_types::results::beside;
use std::alloc::Global;

fn attempt_awaiting(attempt: &mut Option<Attempt>, node: NodeId) -> Result<(), Memory>
    ensures { OnOk result (attempt.new ≡ on_attempt (λ x. awaiting x node) attempt.old) }
{
    if let Some(old) = attempt.take() {
        *attempt = Some(old.awaiting(node)?);
    }
    Ok(())
}

fn attempt_begun(
    alloc: Global,
    attempt: &mut Option<Attempt>,
    node: NodeId,
    instance: u32,
) -> Result<(), Memory>
    ensures { OnOk result (attempt.new ≡ on_attempt (λ x. begun x node instance) attempt.old) }
{
    if let Some(old) = attempt.take() {
        *attempt = Some(old.begun(alloc, node, instance)?);
    }
    Ok(())
}

fn context_awaiting(context: &mut Option<Context>, node: NodeId) -> Result<(), Memory>
    ensures { OnOk result (context.new ≡ on_context (λ x. awaiting x node) context.old) }
{
    match context {
        Some(context) => attempt_awaiting(&mut context.attempt, node),
        None => Ok(()),
    }
}

fn context_begun(
    alloc: Global,
    context: &mut Option<Context>,
    node: NodeId,
    instance: u32,
) -> Result<(), Memory>
    ensures { OnOk result (context.new ≡ on_context (λ x. begun x node instance) context.old) }
{
    match context {
        Some(context) => attempt_begun(alloc, &mut context.attempt, node, instance),
        None => Ok(()),
    }
}

/// The attempt of the terminal awaits an answer of this node.
pub(crate) fn note_awaiting(
    record: &mut ControlRecord,
    alloc: Global,
    ue: UeId,
    node: NodeId,
) -> Result<(), Memory>
    ensures { OnOk result (record.new ≡ with_attempt ue (λ a. awaiting a node) record.old) }
{
    let mut terminal = record.terminal(alloc, ue)?;
    let noted = context_awaiting(&mut terminal.context, node);
    let (_, terminal) = beside(noted, terminal)?;
    record.put_terminal(ue, terminal)
}

/// The request to this node got its instance.
pub(crate) fn note_begun(
    record: &mut ControlRecord,
    alloc: Global,
    ue: UeId,
    node: NodeId,
    instance: u32,
) -> Result<(), Memory>
    ensures { OnOk result (record.new ≡ with_attempt ue (λ a. begun a node instance) record.old) }
{
    let mut terminal = record.terminal(alloc, ue)?;
    let noted = context_begun(alloc, &mut terminal.context, node, instance);
    let (_, terminal) = beside(noted, terminal)?;
    record.put_terminal(ue, terminal)
}
