//! At the source of a handover to the other gNB.

ghost use Rattle.std.specs.Prelude.{◌&&◌};
ghost use Rattle.unit_defs.specs.Messages.{cause_name, are_bearers, statuses_of};
ghost use Rattle.unit_defs.specs.CuCpRecords.{bearers_in};
ghost use Rattle.unit_defs.specs.CuCpRows.{name_bearers, handover_is_acknowledged, handover_is_declined, handover_is_frozen, handover_is_not_frozen};
ghost use Rattle.unit_defs.specs.CuCp.{listed, caused, in_preparing, in_prepared};
ghost use Rattle.unit_defs.specs.octet_defs.Codec.{octet_way};
ghost use Rattle.unit_messages.specs.Messages.{message_as};
ghost use Rattle.cu_cp_records.specs.control_actions.Rows.{SomeRowGives};

use crate::control_answers::closing::{cause_name, only_closes};
use crate::control_answers::copies::{both_name_bearers, copy_both};
use cu_cp_records::control_actions::{Row, Scope};
use cu_cp_records::control_contexts::{Attempt, Context, Terminal};
use cu_cp_records::status_copies::copy_statuses;
use cu_cp_rows::control_rows::{
    handover_is_acknowledged, handover_is_declined, handover_is_frozen, handover_is_not_frozen,
};
use cu_cp_rows::control_targets::statuses_name_bearers;
use gnb_types::plans::{Peer, StatusList, TunnelList};
use message_types::{E1Message, XnMessage};
use unit_messages::steps::StepError;
use unit_messages::{Message, MessageCodec};

/// The target is ready, or isn't.
pub(crate) fn in_preparing<C: MessageCodec>(
    at: &Scope<'_, C>,
    message: &Message,
    terminal: &Terminal,
    context: &Context,
    attempt: &Attempt,
) -> Result<Option<Row>, StepError>
    ensures { SomeRowGives
        (in_preparing (octet_way C.codec) at.now (message_as message.now) terminal.now context.now
        attempt.now) result }
{
    match message {
        Message::Xn(message) => in_preparing_on_xn(at, message, terminal, context, attempt),
        Message::F1(_) | Message::E1(_) | Message::Core(_) | Message::Rrc(_) => only_closes(
            at, terminal, context, attempt,
        ),
    }
}

fn in_preparing_on_xn<C: MessageCodec>(
    at: &Scope<'_, C>,
    message: &XnMessage,
    terminal: &Terminal,
    context: &Context,
    attempt: &Attempt,
) -> Result<Option<Row>, StepError>
    ensures { SomeRowGives
        (in_preparing (octet_way C.codec) at.now (message_as (Message.Xn message.now)) terminal.now
        context.now attempt.now) result }
{
    match message {
        XnMessage::HandoverRequestAcknowledge {
            peer,
            forward_down,
            forward_up,
            ..
        } => target_came(
            at,
            *peer,
            forward_down,
            forward_up,
            terminal,
            context,
            attempt,
        ),
        XnMessage::HandoverPreparationFailure { cause, .. } => target_declined(
            at, *cause, terminal, context,
        ),
        XnMessage::HandoverRequest { .. }
        | XnMessage::SnStatusTransfer { .. }
        | XnMessage::HandoverCancel { .. }
        | XnMessage::UeContextRelease { .. }
        | XnMessage::TransportConfirm { .. } => only_closes(at, terminal, context, attempt),
    }
}

fn target_came<C: MessageCodec>(
    at: &Scope<'_, C>,
    peer: Peer,
    forward_down: &TunnelList,
    forward_up: &TunnelList,
    terminal: &Terminal,
    context: &Context,
    attempt: &Attempt,
) -> Result<Option<Row>, StepError>
    ensures { SomeRowGives
        (listed (octet_way C.codec)
        (name_bearers context.now forward_down.now && name_bearers context.now forward_up.now)
        (handover_is_acknowledged (octet_way C.codec) at.now peer forward_down.now forward_up.now terminal.now
        context.now attempt.now)) result }
{
    if !both_name_bearers(at.alloc, context, forward_down, forward_up)? {
        return Ok(None);
    }
    let (forward_down, forward_up) = copy_both(at.alloc, forward_down, forward_up)?;
    let attempt = attempt.copy(at.alloc)?;
    Ok(Some(handover_is_acknowledged(
        at,
        peer,
        forward_down,
        forward_up,
        terminal,
        context,
        attempt,
    )?))
}

fn target_declined<C: MessageCodec>(
    at: &Scope<'_, C>,
    cause: u32,
    terminal: &Terminal,
    context: &Context,
) -> Result<Option<Row>, StepError>
    ensures { SomeRowGives
        (caused (octet_way C.codec) (cause_name cause)
        (λ name. handover_is_declined (octet_way C.codec) name terminal.now context.now)) result }
{
    let Some(name) = cause_name(cause) else {
        return Ok(None);
    };
    Ok(Some(handover_is_declined(at, name, terminal, context)?))
}

/// The bearers are frozen, or can't be.
pub(crate) fn in_prepared<C: MessageCodec>(
    at: &Scope<'_, C>,
    message: &Message,
    terminal: &Terminal,
    context: &Context,
    attempt: &Attempt,
) -> Result<Option<Row>, StepError>
    ensures { SomeRowGives
        (in_prepared (octet_way C.codec) at.now (message_as message.now) terminal.now context.now
        attempt.now) result }
{
    match message {
        Message::E1(message) => in_prepared_on_e1(at, message, terminal, context, attempt),
        Message::F1(_) | Message::Xn(_) | Message::Core(_) | Message::Rrc(_) => only_closes(
            at, terminal, context, attempt,
        ),
    }
}

fn in_prepared_on_e1<C: MessageCodec>(
    at: &Scope<'_, C>,
    message: &E1Message,
    terminal: &Terminal,
    context: &Context,
    attempt: &Attempt,
) -> Result<Option<Row>, StepError>
    ensures { SomeRowGives
        (in_prepared (octet_way C.codec) at.now (message_as (Message.E1 message.now)) terminal.now
        context.now attempt.now) result }
{
    match message {
        E1Message::BearerContextModificationResponse {
            statuses: Some(statuses),
            ..
        } => statuses_came(at, statuses, terminal, context, attempt),
        E1Message::BearerContextModificationResponse { statuses: None, .. } => Ok(None),
        E1Message::BearerContextModificationFailure { cause, .. } => not_frozen(
            at, *cause, terminal, context,
        ),
        E1Message::E1SetupRequest { .. }
        | E1Message::E1SetupResponse { .. }
        | E1Message::BearerContextSetupRequest { .. }
        | E1Message::BearerContextSetupResponse { .. }
        | E1Message::BearerContextSetupFailure { .. }
        | E1Message::BearerContextModificationRequest { .. }
        | E1Message::BearerContextReleaseCommand { .. }
        | E1Message::BearerContextReleaseComplete { .. } => only_closes(
            at, terminal, context, attempt,
        ),
    }
}

fn statuses_came<C: MessageCodec>(
    at: &Scope<'_, C>,
    statuses: &StatusList,
    terminal: &Terminal,
    context: &Context,
    attempt: &Attempt,
) -> Result<Option<Row>, StepError>
    ensures { SomeRowGives
        (listed (octet_way C.codec) (are_bearers (bearers_in context.now) (statuses_of statuses.now))
        (handover_is_frozen (octet_way C.codec) at.now statuses.now terminal.now context.now attempt.now))
        result }
{
    if !statuses_name_bearers(at.alloc, context, statuses)? {
        return Ok(None);
    }
    let statuses = copy_statuses(at.alloc, statuses)?;
    let attempt = attempt.copy(at.alloc)?;
    Ok(Some(handover_is_frozen(at, statuses, terminal, context, attempt)?))
}

fn not_frozen<C: MessageCodec>(
    at: &Scope<'_, C>,
    cause: u32,
    terminal: &Terminal,
    context: &Context,
) -> Result<Option<Row>, StepError>
    ensures { SomeRowGives
        (caused (octet_way C.codec) (cause_name cause)
        (λ name. handover_is_not_frozen (octet_way C.codec) at.now name terminal.now context.now))
        result }
{
    let Some(name) = cause_name(cause) else {
        return Ok(None);
    };
    Ok(Some(handover_is_not_frozen(at, name, terminal, context)?))
}
