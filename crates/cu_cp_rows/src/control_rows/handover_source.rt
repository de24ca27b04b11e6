//! A handover to the other gNB, at its source (TS 38.423, 8.2; TS 38.300, 9.2.3.2), the command, and a cancel by order.

ghost use Rattle.std.specs.Prelude.{◌≡◌, Some, None};
ghost use Rattle.unit_defs.specs.CuCpRows.{epoch_of, handover_request, handover_begins, handover_on, handover, handover_is_acknowledged, handover_is_declined, handover_expires, handover_is_frozen, handover_is_not_frozen, command, cancel_attempt, cancel_of, cancel};
ghost use Rattle.unit_defs.specs.Messages.{is_same_gnb};
ghost use Rattle.unit_defs.specs.octet_defs.Codec.{octet_way};
ghost use Rattle.cu_cp_records.specs.control_actions.Rows.{action_as, RowGives};

use crate::control_rows::attaching::only_command;
use crate::control_rows::moving::move_begins;
use crate::control_rows::releasing::is_serving;
use cu_cp_records::control_actions::actions::{Action, EPOCHS, NO_INSTANCE};
use cu_cp_records::control_actions::{Row, Scope, other_cu_cp, two};
use cu_cp_records::control_contexts::{Attempt, Context, Terminal};
use cu_cp_records::control_requests::{du_release, freeze_action, resume_action, xn_cancel};
use gnb_types::items::Items;
use gnb_types::names::Gnb;
use gnb_types::plans::{Peer, Plan, StatusList, TunnelList};
use gnb_types::reasons::{CauseName, RefuseReason};
use gnb_types::results::beside;
use message_types::XnMessage;
use unit_defs::{AttemptKind, StateName};
use unit_messages::steps::StepError;
use unit_messages::{Message, MessageCodec};

/// Ticks from the request of a handover until it is given up.
const PREPARATION_TICKS: u16 = 8;

pub fn is_same_gnb(a: Gnb, b: Gnb) -> bool
    ensures { result ≡ is_same_gnb a b }
{
    match (a, b) {
        (Gnb::A, Gnb::A) | (Gnb::B, Gnb::B) => true,
        (Gnb::A, Gnb::B) | (Gnb::B, Gnb::A) => false,
    }
}

fn epoch_of<C: MessageCodec>(_at: &Scope<'_, C>, context: &Context) -> u32
    ensures { result ≡ epoch_of (octet_way C.codec) context.now }
{
    match context.epoch {
        Some(epoch) => epoch,
        None => 0,
    }
}

/// The request to the other gNB.
fn handover_request<C: MessageCodec>(
    at: &Scope<'_, C>,
    goal: Plan,
    context: &Context,
    epoch: u32,
) -> Action
    ensures { action_as result
        ≡ handover_request (octet_way C.codec) at.now goal context.now epoch }
{
    Action::Ask {
        to: other_cu_cp(at),
        message: Message::Xn(XnMessage::HandoverRequest {
            ue: at.ue,
            instance: NO_INSTANCE,
            epoch,
            bearers: context.bearers,
            sn: context.sn,
            quota: context.quota,
            peer: Peer {
                gnb: goal.gnb,
                up: goal.up,
            },
            du: goal.du,
            origin: None,
        }),
        deadline: Some(PREPARATION_TICKS),
        awaited: true,
    }
}

/// It begins with a request to the other gNB, with the epoch after the one that was accepted last.
#[tactic(auto, unfolding(unit_defs::specs::CuCpRows::handover_begins))]
fn handover_begins<C: MessageCodec>(
    at: &Scope<'_, C>,
    goal: Plan,
    epoch: u32,
    terminal: &Terminal,
    context: &Context,
) -> Result<Row, StepError>
    ensures { RowGives
        (handover_begins (octet_way C.codec) at.now goal epoch terminal.now context.now) result }
{
    if epoch == u32::MAX {
        return Err(StepError::Spent { counter: EPOCHS });
    }
    let epoch = epoch + 1;
    let actions = Items::one(at.alloc, handover_request(at, goal, context, epoch))?;
    let attempt = Attempt::new(
        at.alloc,
        AttemptKind::BetweenGnbs,
        u64::from(epoch),
        goal.up,
        goal.du,
    );
    let context = context.attempted(StateName::Preparing, attempt);
    Ok(Row::keeps(terminal, actions, context))
}

/// An order: to another DU of the own gNB with the same CU-UP, or to the other gNB, of a terminal that is served.
#[tactic(auto, unfolding(unit_defs::specs::CuCpRows::handover))]
pub fn handover<C: MessageCodec>(
    at: &Scope<'_, C>,
    goal: Plan,
    terminal: &Terminal,
) -> Result<Row, StepError>
    ensures { RowGives (handover (octet_way C.codec) at.now goal terminal.now) result }
{
    match &terminal.context {
        Some(context) => handover_of(at, goal, terminal, context),
        None => Row::refuses(at, terminal, RefuseReason::Busy),
    }
}

fn handover_of<C: MessageCodec>(
    at: &Scope<'_, C>,
    goal: Plan,
    terminal: &Terminal,
    context: &Context,
) -> Result<Row, StepError>
    ensures { RowGives
        (handover_on (octet_way C.codec) at.now goal terminal.now (Some context.now)) result }
{
    let is_own = is_same_gnb(goal.gnb, at.gnb);
    if is_own && goal.du == context.du {
        return Row::refuses(at, terminal, RefuseReason::Same);
    }
    if is_own && goal.up != context.up {
        return Row::refuses(at, terminal, RefuseReason::NotAllowed);
    }
    if !is_serving(at, context.state) {
        return Row::refuses(at, terminal, RefuseReason::Busy);
    }
    let epoch = epoch_of(at, context);
    if is_own {
        return move_begins(at, goal, epoch, terminal, context);
    }
    handover_begins(at, goal, epoch, terminal, context)
}

/// The target is ready: what is here is frozen, and goes there.
#[tactic(auto, unfolding(unit_defs::specs::CuCpRows::handover_is_acknowledged))]
pub fn handover_is_acknowledged<C: MessageCodec>(
    at: &Scope<'_, C>,
    peer: Peer,
    forward_down: TunnelList,
    forward_up: TunnelList,
    terminal: &Terminal,
    context: &Context,
    attempt: Attempt,
) -> Result<Row, StepError>
    ensures { RowGives
        (handover_is_acknowledged (octet_way C.codec) at.now peer forward_down forward_up
        terminal.now context.now attempt) result }
{
    let freeze = freeze_action(at, context, peer, forward_down, forward_up);
    let (actions, attempt) = beside(Items::one(at.alloc, freeze), attempt)?;
    let context = context.attempted(StateName::Prepared, attempt);
    Ok(Row::keeps(terminal, actions, context))
}

/// The target isn't ready.
#[tactic(auto, unfolding(unit_defs::specs::CuCpRows::handover_is_declined))]
pub fn handover_is_declined<C: MessageCodec>(
    at: &Scope<'_, C>,
    cause: CauseName,
    terminal: &Terminal,
    context: &Context,
) -> Result<Row, StepError>
    ensures { RowGives
        (handover_is_declined (octet_way C.codec) cause terminal.now context.now) result }
{
    let actions = Items::one(at.alloc, Action::Fail(cause))?;
    Ok(Row::keeps(terminal, actions, context.serving()))
}

/// The target did not answer within the deadline.
#[tactic(auto, unfolding(unit_defs::specs::CuCpRows::handover_expires))]
pub fn handover_expires<C: MessageCodec>(
    at: &Scope<'_, C>,
    terminal: &Terminal,
    context: &Context,
) -> Result<Row, StepError>
    ensures { RowGives
        (handover_expires (octet_way C.codec) at.now terminal.now context.now) result }
{
    let actions = two(at.alloc, xn_cancel(at), Action::Fail(CauseName::Timeout))?;
    Ok(Row::keeps(terminal, actions, context.serving()))
}

/// It is frozen: the SN status.
#[tactic(auto, unfolding(unit_defs::specs::CuCpRows::handover_is_frozen))]
pub fn handover_is_frozen<C: MessageCodec>(
    at: &Scope<'_, C>,
    statuses: StatusList,
    terminal: &Terminal,
    context: &Context,
    attempt: Attempt,
) -> Result<Row, StepError>
    ensures { RowGives
        (handover_is_frozen (octet_way C.codec) at.now statuses terminal.now context.now attempt)
        result }
{
    let transfer = Action::Ask {
        to: other_cu_cp(at),
        message: Message::Xn(XnMessage::SnStatusTransfer {
            ue: at.ue,
            instance: NO_INSTANCE,
            statuses,
        }),
        deadline: None,
        awaited: false,
    };
    let (actions, attempt) = beside(Items::one(at.alloc, transfer), attempt)?;
    let context = context.attempted(StateName::Frozen, attempt);
    Ok(Row::keeps(terminal, actions, context))
}

/// It could not be frozen.
#[tactic(auto, unfolding(unit_defs::specs::CuCpRows::handover_is_not_frozen))]
pub fn handover_is_not_frozen<C: MessageCodec>(
    at: &Scope<'_, C>,
    cause: CauseName,
    terminal: &Terminal,
    context: &Context,
) -> Result<Row, StepError>
    ensures { RowGives
        (handover_is_not_frozen (octet_way C.codec) at.now cause terminal.now context.now) result }
{
    let actions = two(at.alloc, xn_cancel(at), Action::Fail(cause))?;
    Ok(Row::keeps(terminal, actions, context.serving()))
}

// ---- the command, at the tick after all is ready, and again at each tick

#[tactic(auto, unfolding(unit_defs::specs::CuCpRows::command))]
pub fn command<C: MessageCodec>(
    at: &Scope<'_, C>,
    terminal: &Terminal,
    context: &Context,
    attempt: Attempt,
) -> Result<Row, StepError>
    ensures { RowGives
        (command (octet_way C.codec) at.now terminal.now context.now attempt) result }
{
    let (actions, attempt) = beside(only_command(at, context, &attempt), attempt)?;
    let context = context.attempted(StateName::Commanded, attempt);
    Ok(Row::keeps(terminal, actions, context))
}

// ---- a cancel (TS 38.423, 8.2.3)

/// An order: the attempt is given up, before the command alone.
#[tactic(auto, unfolding(unit_defs::specs::CuCpRows::cancel))]
pub fn cancel<C: MessageCodec>(at: &Scope<'_, C>, terminal: &Terminal) -> Result<Row, StepError>
    ensures { RowGives (cancel (octet_way C.codec) at.now terminal.now) result }
{
    match &terminal.context {
        Some(context) => cancel_of(at, terminal, context),
        None => Row::refuses(at, terminal, RefuseReason::Empty),
    }
}

fn cancel_of<C: MessageCodec>(
    at: &Scope<'_, C>,
    terminal: &Terminal,
    context: &Context,
) -> Result<Row, StepError>
    ensures { RowGives
        (cancel_of (octet_way C.codec) at.now terminal.now context.now context.now.attempt) result }
{
    match &context.attempt {
        Some(attempt) => cancel_attempt(at, terminal, context, attempt),
        None => Row::refuses(at, terminal, RefuseReason::Empty),
    }
}

fn cancel_attempt<C: MessageCodec>(
    at: &Scope<'_, C>,
    terminal: &Terminal,
    context: &Context,
    attempt: &Attempt,
) -> Result<Row, StepError>
    ensures { RowGives
        (cancel_attempt (octet_way C.codec) at.now terminal.now context.now context.now.state
        attempt.now.kind attempt.now) result }
{
    match context.state {
        StateName::Preparing => cancel_while_preparing(at, terminal, context, attempt),
        StateName::Prepared => Row::refuses(at, terminal, RefuseReason::Busy),
        StateName::Frozen => cancel_while_frozen(at, terminal, context, attempt),
        StateName::Commanded => cancel_while_commanded(at, terminal, context, attempt),
        StateName::Idle
        | StateName::Attaching
        | StateName::Returning
        | StateName::Completing
        | StateName::Offered
        | StateName::Ready
        | StateName::Arrived
        | StateName::Serving => Row::refuses(at, terminal, RefuseReason::Empty),
    }
}

fn cancel_while_preparing<C: MessageCodec>(
    at: &Scope<'_, C>,
    terminal: &Terminal,
    context: &Context,
    attempt: &Attempt,
) -> Result<Row, StepError>
    ensures { RowGives
        (cancel_attempt (octet_way C.codec) at.now terminal.now context.now StateName.Preparing
        attempt.now.kind attempt.now) result }
{
    match attempt.kind {
        AttemptKind::BetweenGnbs => {
            let actions = Items::one(at.alloc, xn_cancel(at))?;
            Ok(Row::keeps(terminal, actions, context.serving()))
        }
        AttemptKind::BetweenDus => Row::refuses(at, terminal, RefuseReason::Busy),
        AttemptKind::Attach | AttemptKind::Offer | AttemptKind::Return => {
            Row::refuses(at, terminal, RefuseReason::Empty)
        }
    }
}

fn cancel_while_frozen<C: MessageCodec>(
    at: &Scope<'_, C>,
    terminal: &Terminal,
    context: &Context,
    attempt: &Attempt,
) -> Result<Row, StepError>
    ensures { RowGives
        (cancel_attempt (octet_way C.codec) at.now terminal.now context.now StateName.Frozen
        attempt.now.kind attempt.now) result }
{
    match attempt.kind {
        AttemptKind::BetweenDus => {
            let actions = Items::one(at.alloc, du_release(at, attempt.du, false))?;
            Ok(Row::keeps(terminal, actions, context.serving()))
        }
        AttemptKind::Attach | AttemptKind::BetweenGnbs | AttemptKind::Offer | AttemptKind::Return =>
            {
                let actions = two(at.alloc, xn_cancel(at), resume_action(at, context))?;
                Ok(Row::keeps(terminal, actions, context.serving()))
            }
    }
}

fn cancel_while_commanded<C: MessageCodec>(
    at: &Scope<'_, C>,
    terminal: &Terminal,
    context: &Context,
    attempt: &Attempt,
) -> Result<Row, StepError>
    ensures { RowGives
        (cancel_attempt (octet_way C.codec) at.now terminal.now context.now StateName.Commanded
        attempt.now.kind attempt.now) result }
{
    match attempt.kind {
        AttemptKind::BetweenDus | AttemptKind::BetweenGnbs => {
            Row::refuses(at, terminal, RefuseReason::TooLate)
        }
        AttemptKind::Attach | AttemptKind::Offer | AttemptKind::Return => {
            Row::refuses(at, terminal, RefuseReason::Empty)
        }
    }
}
