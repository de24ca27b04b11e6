//! While an attach is under way.

ghost use Rattle.std.specs.Prelude.{◌&&◌};
ghost use Rattle.unit_defs.specs.Messages.{cause_name};
ghost use Rattle.unit_defs.specs.CuCpRows.{name_bearers, attach_has_tunnels, attach_is_placed, attach_fails};
ghost use Rattle.unit_defs.specs.CuCp.{listed, caused, in_attaching};
ghost use Rattle.unit_defs.specs.octet_defs.Codec.{octet_way};
ghost use Rattle.unit_messages.specs.Messages.{message_as};
ghost use Rattle.cu_cp_records.specs.control_actions.Rows.{SomeRowGives};

use crate::control_answers::closing::{cause_name, only_closes};
use crate::control_answers::copies::{both_name_bearers, copy_both, copy_named};
use cu_cp_records::control_actions::{Row, Scope};
use cu_cp_records::control_contexts::{Attempt, Context, Terminal};
use cu_cp_rows::control_rows::{attach_fails, attach_has_tunnels, attach_is_placed};
use gnb_types::plans::TunnelList;
use message_types::{E1Message, F1, F1Message};
use unit_messages::steps::StepError;
use unit_messages::{Message, MessageCodec};

/// The bearers have their tunnels, or are refused; or the DU is ready.
pub(crate) fn in_attaching<C: MessageCodec>(
    at: &Scope<'_, C>,
    message: &Message,
    terminal: &Terminal,
    context: &Context,
    attempt: &Attempt,
) -> Result<Option<Row>, StepError>
    ensures { SomeRowGives
        (in_attaching (octet_way C.codec) at.now (message_as message.now) terminal.now context.now
        attempt.now) result }
{
    match message {
        Message::F1(message) => in_attaching_on_f1(at, message, terminal, context, attempt),
        Message::E1(message) => in_attaching_on_e1(at, message, terminal, context, attempt),
        Message::Xn(_) | Message::Core(_) | Message::Rrc(_) => only_closes(
            at, terminal, context, attempt,
        ),
    }
}

fn in_attaching_on_e1<C: MessageCodec>(
    at: &Scope<'_, C>,
    message: &E1Message,
    terminal: &Terminal,
    context: &Context,
    attempt: &Attempt,
) -> Result<Option<Row>, StepError>
    ensures { SomeRowGives
        (in_attaching (octet_way C.codec) at.now (message_as (Message.E1 message.now)) terminal.now
        context.now attempt.now) result }
{
    match message {
        E1Message::BearerContextSetupResponse { uplinks, n3, .. } => tunnels_came(
            at, uplinks, n3, terminal, context, attempt,
        ),
        E1Message::BearerContextSetupFailure { cause, .. } => failure_came(at, *cause, terminal),
        E1Message::E1SetupRequest { .. }
        | E1Message::E1SetupResponse { .. }
        | E1Message::BearerContextSetupRequest { .. }
        | E1Message::BearerContextModificationRequest { .. }
        | E1Message::BearerContextModificationResponse { .. }
        | E1Message::BearerContextModificationFailure { .. }
        | E1Message::BearerContextReleaseCommand { .. }
        | E1Message::BearerContextReleaseComplete { .. } => only_closes(
            at, terminal, context, attempt,
        ),
    }
}

fn tunnels_came<C: MessageCodec>(
    at: &Scope<'_, C>,
    uplinks: &TunnelList,
    n3: &TunnelList,
    terminal: &Terminal,
    context: &Context,
    attempt: &Attempt,
) -> Result<Option<Row>, StepError>
    ensures { SomeRowGives
        (listed (octet_way C.codec) (name_bearers context.now uplinks.now && name_bearers context.now n3.now)
        (attach_has_tunnels (octet_way C.codec) at.now uplinks.now n3.now terminal.now context.now attempt.now)) result }
{
    if !both_name_bearers(at.alloc, context, uplinks, n3)? {
        return Ok(None);
    }
    let (uplinks, n3) = copy_both(at.alloc, uplinks, n3)?;
    let attempt = attempt.copy(at.alloc)?;
    Ok(Some(attach_has_tunnels(at, uplinks, n3, terminal, context, attempt)?))
}

fn failure_came<C: MessageCodec>(
    at: &Scope<'_, C>,
    cause: u32,
    terminal: &Terminal,
) -> Result<Option<Row>, StepError>
    ensures { SomeRowGives
        (caused (octet_way C.codec) (cause_name cause)
        (λ name. attach_fails (octet_way C.codec) name terminal.now)) result }
{
    let Some(name) = cause_name(cause) else {
        return Ok(None);
    };
    Ok(Some(attach_fails(at, name, terminal)?))
}

fn in_attaching_on_f1<C: MessageCodec>(
    at: &Scope<'_, C>,
    message: &F1Message,
    terminal: &Terminal,
    context: &Context,
    attempt: &Attempt,
) -> Result<Option<Row>, StepError>
    ensures { SomeRowGives
        (in_attaching (octet_way C.codec) at.now (message_as (Message.F1 message.now)) terminal.now
        context.now attempt.now) result }
{
    match message {
        F1::UeContextSetupResponse { downlinks, .. } => du_came(
            at, downlinks, terminal, context, attempt,
        ),
        F1::F1SetupRequest { .. }
        | F1::F1SetupResponse { .. }
        | F1::UeContextSetupRequest { .. }
        | F1::UeContextModificationRequest { .. }
        | F1::UeContextModificationResponse { .. }
        | F1::UeContextReleaseCommand { .. }
        | F1::UeContextReleaseComplete { .. }
        | F1::DlRrcMessageTransfer { .. }
        | F1::UlRrcMessageTransfer { .. } => only_closes(at, terminal, context, attempt),
    }
}

fn du_came<C: MessageCodec>(
    at: &Scope<'_, C>,
    downlinks: &TunnelList,
    terminal: &Terminal,
    context: &Context,
    attempt: &Attempt,
) -> Result<Option<Row>, StepError>
    ensures { SomeRowGives
        (listed (octet_way C.codec) (name_bearers context.now downlinks.now)
        (attach_is_placed (octet_way C.codec) at.now downlinks.now terminal.now context.now attempt.now)) result }
{
    let Some(downlinks) = copy_named(at.alloc, context, downlinks)? else {
        return Ok(None);
    };
    let attempt = attempt.copy(at.alloc)?;
    Ok(Some(attach_is_placed(at, downlinks, terminal, context, attempt)?))
}
