//! At the target of a handover from the other gNB, before it is ready.

ghost use Rattle.std.specs.Prelude.{◌≡◌, ◌&&◌, IfOk};
ghost use Rattle.unit_defs.specs.Messages.{cause_name};
ghost use Rattle.unit_defs.specs.CuCpRows.{name_bearers, offer_has_tunnels, offer_is_declined, offer_is_placed};
ghost use Rattle.unit_defs.specs.CuCp.{listed, caused, in_offered};
ghost use Rattle.unit_defs.specs.octet_defs.Codec.{octet_way};
ghost use Rattle.unit_messages.specs.Messages.{message_as};
ghost use Rattle.cu_cp_records.specs.control_actions.Rows.{SomeRowGives};

use crate::control_answers::closing::{cause_name, only_closes};
use crate::control_answers::copies::{both_name_bearers, copy_both, copy_named};
use cu_cp_records::control_actions::{Row, Scope};
use cu_cp_records::control_contexts::{Attempt, Context, Terminal};
use cu_cp_rows::control_targets::{
    OfferTunnels, name_bearers, offer_has_tunnels, offer_is_declined, offer_is_placed,
};
use gnb_types::items::Memory;
use gnb_types::plans::TunnelList;
use message_types::{E1Message, F1, F1Message};
use std::alloc::Global;
use unit_messages::steps::StepError;
use unit_messages::{Message, MessageCodec};

/// The bearers have their tunnels, or are refused; or the DU is ready.
pub(crate) fn in_offered<C: MessageCodec>(
    at: &Scope<'_, C>,
    message: &Message,
    terminal: &Terminal,
    context: &Context,
    attempt: &Attempt,
) -> Result<Option<Row>, StepError>
    ensures { SomeRowGives
        (in_offered (octet_way C.codec) at.now (message_as message.now) terminal.now context.now
        attempt.now) result }
{
    match message {
        Message::F1(message) => in_offered_on_f1(at, message, terminal, context, attempt),
        Message::E1(message) => in_offered_on_e1(at, message, terminal, context, attempt),
        Message::Xn(_) | Message::Core(_) | Message::Rrc(_) => only_closes(
            at, terminal, context, attempt,
        ),
    }
}

fn in_offered_on_e1<C: MessageCodec>(
    at: &Scope<'_, C>,
    message: &E1Message,
    terminal: &Terminal,
    context: &Context,
    attempt: &Attempt,
) -> Result<Option<Row>, StepError>
    ensures { SomeRowGives
        (in_offered (octet_way C.codec) at.now (message_as (Message.E1 message.now)) terminal.now
        context.now attempt.now) result }
{
    match message {
        E1Message::BearerContextSetupResponse {
            uplinks,
            n3,
            forward_down: Some(forward_down),
            forward_up: Some(forward_up),
            ..
        } => {
            let tunnels = copied(at.alloc, uplinks, n3, forward_down, forward_up)?;
            tunnels_came(at, tunnels, terminal, context, attempt)
        }
        E1Message::BearerContextSetupResponse {
            forward_down: None,
            ..
        } => Ok(None),
        E1Message::BearerContextSetupResponse {
            forward_down: Some(_),
            forward_up: None,
            ..
        } => Ok(None),
        E1Message::BearerContextSetupFailure { cause, .. } => failure_came(
            at, *cause, terminal, attempt,
        ),
        E1Message::E1SetupRequest { .. }
        | E1Message::E1SetupResponse { .. }
        | E1Message::BearerContextSetupRequest { .. }
        | E1Message::BearerContextModificationRequest { .. }
        | E1Message::BearerContextModificationResponse { .. }
        | E1Message::BearerContextModificationFailure { .. }
        | E1Message::BearerContextReleaseCommand { .. }
        | E1Message::BearerContextReleaseComplete { .. } => only_closes(
            at, terminal, context, attempt,
        ),
    }
}

fn copied(
    alloc: Global,
    uplinks: &TunnelList,
    n3: &TunnelList,
    forward_down: &TunnelList,
    forward_up: &TunnelList,
) -> Result<OfferTunnels, Memory>
    ensures { IfOk result (λ t. t ≡ record {
      uplinks = uplinks.now;
      n3 = n3.now;
      forward_down = forward_down.now;
      forward_up = forward_up.now;
    }) }
{
    let (uplinks, n3) = copy_both(alloc, uplinks, n3)?;
    let (forward_down, forward_up) = copy_both(alloc, forward_down, forward_up)?;
    Ok(OfferTunnels {
        uplinks,
        n3,
        forward_down,
        forward_up,
    })
}

/// Whether the lists of the core and of forwarding name the bearers of the context.
fn rest_is_named(alloc: Global, context: &Context, tunnels: &OfferTunnels) -> Result<bool, Memory>
    ensures { IfOk result (λ named. named
        ≡ (name_bearers context.now tunnels.now.n3
        && name_bearers context.now tunnels.now.forward_down
        && name_bearers context.now tunnels.now.forward_up)) }
{
    Ok(
        name_bearers(alloc, context, &tunnels.n3)?
            && both_name_bearers(alloc, context, &tunnels.forward_down, &tunnels.forward_up)?,
    )
}

/// Whether all four lists name the bearers of the context.
fn are_named(alloc: Global, context: &Context, tunnels: &OfferTunnels) -> Result<bool, Memory>
    ensures { IfOk result (λ named. named
        ≡ (name_bearers context.now tunnels.now.uplinks && name_bearers context.now tunnels.now.n3
        && name_bearers context.now tunnels.now.forward_down
        && name_bearers context.now tunnels.now.forward_up)) }
{
    Ok(name_bearers(alloc, context, &tunnels.uplinks)? && rest_is_named(alloc, context, tunnels)?)
}

fn tunnels_came<C: MessageCodec>(
    at: &Scope<'_, C>,
    tunnels: OfferTunnels,
    terminal: &Terminal,
    context: &Context,
    attempt: &Attempt,
) -> Result<Option<Row>, StepError>
    ensures { SomeRowGives
        (listed (octet_way C.codec)
        (name_bearers context.now tunnels.uplinks && name_bearers context.now tunnels.n3
        && name_bearers context.now tunnels.forward_down
        && name_bearers context.now tunnels.forward_up)
        (offer_has_tunnels (octet_way C.codec) at.now tunnels.uplinks tunnels.n3
        tunnels.forward_down tunnels.forward_up terminal.now context.now attempt.now)) result }
{
    if !are_named(at.alloc, context, &tunnels)? {
        return Ok(None);
    }
    let attempt = attempt.copy(at.alloc)?;
    Ok(Some(offer_has_tunnels(at, tunnels, terminal, context, attempt)?))
}

fn failure_came<C: MessageCodec>(
    at: &Scope<'_, C>,
    cause: u32,
    terminal: &Terminal,
    attempt: &Attempt,
) -> Result<Option<Row>, StepError>
    ensures { SomeRowGives
        (caused (octet_way C.codec) (cause_name cause)
        (λ name. offer_is_declined (octet_way C.codec) at.now cause terminal.now attempt.now))
        result }
{
    if cause_name(cause).is_none() {
        return Ok(None);
    }
    Ok(Some(offer_is_declined(at, cause, terminal, attempt)?))
}

fn in_offered_on_f1<C: MessageCodec>(
    at: &Scope<'_, C>,
    message: &F1Message,
    terminal: &Terminal,
    context: &Context,
    attempt: &Attempt,
) -> Result<Option<Row>, StepError>
    ensures { SomeRowGives
        (in_offered (octet_way C.codec) at.now (message_as (Message.F1 message.now)) terminal.now
        context.now attempt.now) result }
{
    match message {
        F1::UeContextSetupResponse { downlinks, .. } => du_came(
            at, downlinks, terminal, context, attempt,
        ),
        F1::F1SetupRequest { .. }
        | F1::F1SetupResponse { .. }
        | F1::UeContextSetupRequest { .. }
        | F1::UeContextModificationRequest { .. }
        | F1::UeContextModificationResponse { .. }
        | F1::UeContextReleaseCommand { .. }
        | F1::UeContextReleaseComplete { .. }
        | F1::DlRrcMessageTransfer { .. }
        | F1::UlRrcMessageTransfer { .. } => only_closes(at, terminal, context, attempt),
    }
}

fn du_came<C: MessageCodec>(
    at: &Scope<'_, C>,
    downlinks: &TunnelList,
    terminal: &Terminal,
    context: &Context,
    attempt: &Attempt,
) -> Result<Option<Row>, StepError>
    ensures { SomeRowGives
        (listed (octet_way C.codec) (name_bearers context.now downlinks.now)
        (offer_is_placed (octet_way C.codec) at.now downlinks.now terminal.now context.now attempt.now)) result }
{
    let Some(downlinks) = copy_named(at.alloc, context, downlinks)? else {
        return Ok(None);
    };
    let attempt = attempt.copy(at.alloc)?;
    Ok(Some(offer_is_placed(at, downlinks, terminal, context, attempt)?))
}
