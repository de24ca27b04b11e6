//! While a handover between own DUs is under way.

ghost use Rattle.unit_defs.specs.CuCpRows.{name_bearers, move_has_uplinks, move_is_placed};
ghost use Rattle.unit_defs.specs.CuCp.{listed, in_moving};
ghost use Rattle.unit_defs.specs.octet_defs.Codec.{octet_way};
ghost use Rattle.unit_messages.specs.Messages.{message_as};
ghost use Rattle.cu_cp_records.specs.control_actions.Rows.{SomeRowGives};

use crate::control_answers::closing::only_closes;
use crate::control_answers::copies::copy_named;
use cu_cp_records::control_actions::{Row, Scope};
use cu_cp_records::control_contexts::{Attempt, Context, Terminal};
use cu_cp_rows::control_rows::{move_has_uplinks, move_is_placed};
use gnb_types::plans::TunnelList;
use message_types::{E1Message, F1, F1Message};
use unit_messages::steps::StepError;
use unit_messages::{Message, MessageCodec};

/// The bearers have their further uplinks; or the target DU is ready.
pub(crate) fn in_moving<C: MessageCodec>(
    at: &Scope<'_, C>,
    message: &Message,
    terminal: &Terminal,
    context: &Context,
    attempt: &Attempt,
) -> Result<Option<Row>, StepError>
    ensures { SomeRowGives
        (in_moving (octet_way C.codec) at.now (message_as message.now) terminal.now context.now
        attempt.now) result }
{
    match message {
        Message::F1(message) => in_moving_on_f1(at, message, terminal, context, attempt),
        Message::E1(message) => in_moving_on_e1(at, message, terminal, context, attempt),
        Message::Xn(_) | Message::Core(_) | Message::Rrc(_) => only_closes(
            at, terminal, context, attempt,
        ),
    }
}

fn in_moving_on_e1<C: MessageCodec>(
    at: &Scope<'_, C>,
    message: &E1Message,
    terminal: &Terminal,
    context: &Context,
    attempt: &Attempt,
) -> Result<Option<Row>, StepError>
    ensures { SomeRowGives
        (in_moving (octet_way C.codec) at.now (message_as (Message.E1 message.now)) terminal.now
        context.now attempt.now) result }
{
    match message {
        E1Message::BearerContextModificationResponse {
            uplinks: Some(uplinks),
            ..
        } => uplinks_came(at, uplinks, terminal, context, attempt),
        E1Message::BearerContextModificationResponse { uplinks: None, .. } => Ok(None),
        E1Message::E1SetupRequest { .. }
        | E1Message::E1SetupResponse { .. }
        | E1Message::BearerContextSetupRequest { .. }
        | E1Message::BearerContextSetupResponse { .. }
        | E1Message::BearerContextSetupFailure { .. }
        | E1Message::BearerContextModificationRequest { .. }
        | E1Message::BearerContextModificationFailure { .. }
        | E1Message::BearerContextReleaseCommand { .. }
        | E1Message::BearerContextReleaseComplete { .. } => only_closes(
            at, terminal, context, attempt,
        ),
    }
}

fn uplinks_came<C: MessageCodec>(
    at: &Scope<'_, C>,
    uplinks: &TunnelList,
    terminal: &Terminal,
    context: &Context,
    attempt: &Attempt,
) -> Result<Option<Row>, StepError>
    ensures { SomeRowGives
        (listed (octet_way C.codec) (name_bearers context.now uplinks.now)
        (move_has_uplinks (octet_way C.codec) at.now uplinks.now terminal.now context.now attempt.now))
        result }
{
    let Some(uplinks) = copy_named(at.alloc, context, uplinks)? else {
        return Ok(None);
    };
    let attempt = attempt.copy(at.alloc)?;
    Ok(Some(move_has_uplinks(at, uplinks, terminal, context, attempt)?))
}

fn in_moving_on_f1<C: MessageCodec>(
    at: &Scope<'_, C>,
    message: &F1Message,
    terminal: &Terminal,
    context: &Context,
    attempt: &Attempt,
) -> Result<Option<Row>, StepError>
    ensures { SomeRowGives
        (in_moving (octet_way C.codec) at.now (message_as (Message.F1 message.now)) terminal.now
        context.now attempt.now) result }
{
    match message {
        F1::UeContextSetupResponse { downlinks, .. } => du_came(
            at, downlinks, terminal, context, attempt,
        ),
        F1::F1SetupRequest { .. }
        | F1::F1SetupResponse { .. }
        | F1::UeContextSetupRequest { .. }
        | F1::UeContextModificationRequest { .. }
        | F1::UeContextModificationResponse { .. }
        | F1::UeContextReleaseCommand { .. }
        | F1::UeContextReleaseComplete { .. }
        | F1::DlRrcMessageTransfer { .. }
        | F1::UlRrcMessageTransfer { .. } => only_closes(at, terminal, context, attempt),
    }
}

fn du_came<C: MessageCodec>(
    at: &Scope<'_, C>,
    downlinks: &TunnelList,
    terminal: &Terminal,
    context: &Context,
    attempt: &Attempt,
) -> Result<Option<Row>, StepError>
    ensures { SomeRowGives
        (listed (octet_way C.codec) (name_bearers context.now downlinks.now)
        (move_is_placed (octet_way C.codec) downlinks.now terminal.now context.now attempt.now)) result }
{
    let Some(downlinks) = copy_named(at.alloc, context, downlinks)? else {
        return Ok(None);
    };
    let attempt = attempt.copy(at.alloc)?;
    Ok(Some(move_is_placed(at, downlinks, terminal, context, attempt)?))
}
