//! After an arrival or a return.

ghost use Rattle.std.specs.Prelude.{Some};
ghost use Rattle.unit_defs.specs.CuCpRows.{name_bearers, place_is_renewed, is_switched, path_is_switched};
ghost use Rattle.unit_defs.specs.CuCp.{listed, in_switching};
ghost use Rattle.unit_defs.specs.octet_defs.Codec.{octet_way};
ghost use Rattle.unit_messages.specs.Messages.{message_as};
ghost use Rattle.cu_cp_records.specs.control_actions.Rows.{SomeRowGives};

use crate::control_answers::closing::only_closes;
use crate::control_answers::copies::copy_named;
use cu_cp_records::control_actions::{Row, Scope};
use cu_cp_records::control_contexts::{Attempt, Context, Terminal};
use cu_cp_rows::control_targets::{is_switched, path_is_switched, place_is_renewed};
use gnb_types::plans::TunnelList;
use message_types::{CoreMessage, E1Message, F1, F1Message};
use unit_messages::steps::StepError;
use unit_messages::{Message, MessageCodec};

/// The DU has new downlinks, the bearers were switched, or the path was.
pub(crate) fn in_switching<C: MessageCodec>(
    at: &Scope<'_, C>,
    message: &Message,
    terminal: &Terminal,
    context: &Context,
    attempt: &Attempt,
) -> Result<Option<Row>, StepError>
    ensures { SomeRowGives
        (in_switching (octet_way C.codec) at.now (message_as message.now) terminal.now context.now
        attempt.now) result }
{
    match message {
        Message::F1(message) => in_switching_on_f1(at, message, terminal, context, attempt),
        Message::E1(message) => in_switching_on_e1(at, message, terminal, context, attempt),
        Message::Core(message) => in_switching_on_core(at, message, terminal, context, attempt),
        Message::Xn(_) | Message::Rrc(_) => only_closes(at, terminal, context, attempt),
    }
}

fn in_switching_on_f1<C: MessageCodec>(
    at: &Scope<'_, C>,
    message: &F1Message,
    terminal: &Terminal,
    context: &Context,
    attempt: &Attempt,
) -> Result<Option<Row>, StepError>
    ensures { SomeRowGives
        (in_switching (octet_way C.codec) at.now (message_as (Message.F1 message.now)) terminal.now
        context.now attempt.now) result }
{
    match message {
        F1::UeContextModificationResponse { downlinks, .. } => du_came(
            at, downlinks, terminal, context, attempt,
        ),
        F1::F1SetupRequest { .. }
        | F1::F1SetupResponse { .. }
        | F1::UeContextSetupRequest { .. }
        | F1::UeContextSetupResponse { .. }
        | F1::UeContextModificationRequest { .. }
        | F1::UeContextReleaseCommand { .. }
        | F1::UeContextReleaseComplete { .. }
        | F1::DlRrcMessageTransfer { .. }
        | F1::UlRrcMessageTransfer { .. } => only_closes(at, terminal, context, attempt),
    }
}

fn du_came<C: MessageCodec>(
    at: &Scope<'_, C>,
    downlinks: &TunnelList,
    terminal: &Terminal,
    context: &Context,
    attempt: &Attempt,
) -> Result<Option<Row>, StepError>
    ensures { SomeRowGives
        (listed (octet_way C.codec) (name_bearers context.now downlinks.now)
        (place_is_renewed (octet_way C.codec) at.now downlinks.now terminal.now context.now attempt.now)) result }
{
    let Some(downlinks) = copy_named(at.alloc, context, downlinks)? else {
        return Ok(None);
    };
    let attempt = attempt.copy(at.alloc)?;
    Ok(Some(place_is_renewed(at, downlinks, terminal, context, attempt)?))
}

fn in_switching_on_e1<C: MessageCodec>(
    at: &Scope<'_, C>,
    message: &E1Message,
    terminal: &Terminal,
    context: &Context,
    attempt: &Attempt,
) -> Result<Option<Row>, StepError>
    ensures { SomeRowGives
        (in_switching (octet_way C.codec) at.now (message_as (Message.E1 message.now)) terminal.now
        context.now attempt.now) result }
{
    match message {
        E1Message::BearerContextModificationResponse { .. } => switch_came(
            at, terminal, context, attempt,
        ),
        E1Message::E1SetupRequest { .. }
        | E1Message::E1SetupResponse { .. }
        | E1Message::BearerContextSetupRequest { .. }
        | E1Message::BearerContextSetupResponse { .. }
        | E1Message::BearerContextSetupFailure { .. }
        | E1Message::BearerContextModificationRequest { .. }
        | E1Message::BearerContextModificationFailure { .. }
        | E1Message::BearerContextReleaseCommand { .. }
        | E1Message::BearerContextReleaseComplete { .. } => only_closes(
            at, terminal, context, attempt,
        ),
    }
}

fn switch_came<C: MessageCodec>(
    at: &Scope<'_, C>,
    terminal: &Terminal,
    context: &Context,
    attempt: &Attempt,
) -> Result<Option<Row>, StepError>
    ensures { SomeRowGives
        (Some (is_switched (octet_way C.codec) at.now terminal.now context.now attempt.now)) result }
{
    let attempt = attempt.copy(at.alloc)?;
    Ok(Some(is_switched(at, terminal, context, attempt)?))
}

fn in_switching_on_core<C: MessageCodec>(
    at: &Scope<'_, C>,
    message: &CoreMessage,
    terminal: &Terminal,
    context: &Context,
    attempt: &Attempt,
) -> Result<Option<Row>, StepError>
    ensures { SomeRowGives
        (in_switching (octet_way C.codec) at.now (message_as (Message.Core message.now)) terminal.now
        context.now attempt.now) result }
{
    match message {
        CoreMessage::PathSwitchAcknowledge { .. } => path_came(at, terminal, context, attempt),
        CoreMessage::PathSwitchRequest { .. } => only_closes(at, terminal, context, attempt),
    }
}

fn path_came<C: MessageCodec>(
    at: &Scope<'_, C>,
    terminal: &Terminal,
    context: &Context,
    attempt: &Attempt,
) -> Result<Option<Row>, StepError>
    ensures { SomeRowGives
        (Some (path_is_switched (octet_way C.codec) at.now terminal.now context.now attempt.now)) result }
{
    let attempt = attempt.copy(at.alloc)?;
    Ok(Some(path_is_switched(at, terminal, context, attempt)?))
}
