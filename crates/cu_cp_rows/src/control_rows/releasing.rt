//! Releases (TS 38.401, 8.6; TS 38.423, 8.2.7).

ghost use Rattle.std.specs.Prelude.{◌≡◌, [], ◌∷◌, map, true, false, Some, IfOk};
ghost use Rattle.unit_defs.specs.CuCpRows.{du_release, cu_up_release, is_between_gnbs, is_serving, release, release_on, handed_over, xn_released, xn_released_of};
ghost use Rattle.message_types.specs.declared.xn.XnMessage.TheVariants as xns;
ghost use Rattle.unit_defs.specs.CuCpRecords.{replies};
ghost use Rattle.unit_defs.specs.Ways.{xn};
ghost use Rattle.unit_defs.specs.octet_defs.Codec.{octet_way};
ghost use Rattle.cu_cp_records.specs.control_actions.Rows.{action_as, RowGives};

use cu_cp_records::control_actions::actions::Actions;
use cu_cp_records::control_actions::{Row, Scope, two, with_first};
use cu_cp_records::control_contexts::{Attempt, Context, Terminal};
use cu_cp_records::control_requests::{cu_up_release, du_release, transport_confirm};
use gnb_types::items::Memory;
use gnb_types::names::NodeId;
use gnb_types::reasons::{DropReason, RefuseReason};
use gnb_types::results::beside;
use unit_defs::{AttemptKind, StateName};
use unit_messages::MessageCodec;
use unit_messages::steps::StepError;

/// An order: a terminal that is served is released for good.
#[tactic(auto, unfolding(unit_defs::specs::CuCpRows::release))]
pub fn release<C: MessageCodec>(at: &Scope<'_, C>, terminal: &Terminal) -> Result<Row, StepError>
    ensures { RowGives (release (octet_way C.codec) at.now terminal.now) result }
{
    match &terminal.context {
        Some(context) => release_of(at, terminal, context),
        None => Row::refuses(at, terminal, RefuseReason::Busy),
    }
}

fn release_of<C: MessageCodec>(
    at: &Scope<'_, C>,
    terminal: &Terminal,
    context: &Context,
) -> Result<Row, StepError>
    ensures { RowGives
        (release_on (octet_way C.codec) at.now terminal.now (Some context.now)) result }
{
    if !is_serving(at, context.state) {
        return Row::refuses(at, terminal, RefuseReason::Busy);
    }
    let of_du = du_release(at, context.du, false);
    let of_up = cu_up_release(at, context.up, true, false);
    let actions = two(at.alloc, of_du, of_up)?;
    Ok(Row::gives_up(terminal, actions))
}

/// The confirmation to the target, and the releases at the DU and the CU-UP.
fn says_of_release<C: MessageCodec>(
    at: &Scope<'_, C>,
    from: NodeId,
    instance: u32,
    context: &Context,
) -> Result<Actions, Memory>
    ensures { IfOk result (λ actions. map action_as actions
        ≡ replies from (xn (xns.TransportConfirm at.now.ue instance))
        ∷ du_release (octet_way C.codec) at.now context.now.du true
        ∷ cu_up_release (octet_way C.codec) at.now context.now.up false true ∷ []) }
{
    let of_du = du_release(at, context.du, true);
    let of_up = cu_up_release(at, context.up, false, true);
    let releases = two(at.alloc, of_du, of_up)?;
    with_first(at.alloc, transport_confirm(at, from, instance), releases)
}

/// The target has the terminal: the source lets go.
#[tactic(auto, unfolding(unit_defs::specs::CuCpRows::handed_over))]
fn handed_over<C: MessageCodec>(
    at: &Scope<'_, C>,
    from: NodeId,
    instance: u32,
    terminal: &Terminal,
    context: &Context,
    attempt: Attempt,
) -> Result<Row, StepError>
    ensures { RowGives
        (handed_over (octet_way C.codec) at.now from instance terminal.now context.now attempt)
        result }
{
    let (actions, attempt) = beside(says_of_release(at, from, instance, context), attempt)?;
    let context = context.attempted(StateName::Completing, attempt);
    Ok(Row::keeps(terminal, actions, context))
}

/// The other CU-CP tells the source to release the terminal.
#[tactic(auto, unfolding(unit_defs::specs::CuCpRows::xn_released))]
pub fn xn_released<C: MessageCodec>(
    at: &Scope<'_, C>,
    from: NodeId,
    instance: u32,
    terminal: &Terminal,
) -> Result<Row, StepError>
    ensures { RowGives
        (xn_released (octet_way C.codec) at.now from instance terminal.now) result }
{
    match &terminal.context {
        Some(context) => xn_released_of(at, from, instance, terminal, context),
        None => Row::ignores(at, terminal, DropReason::NoContext),
    }
}

fn xn_released_of<C: MessageCodec>(
    at: &Scope<'_, C>,
    from: NodeId,
    instance: u32,
    terminal: &Terminal,
    context: &Context,
) -> Result<Row, StepError>
    ensures { RowGives
        (xn_released_of (octet_way C.codec) at.now from instance terminal.now context.now
        context.now.state context.now.attempt) result }
{
    match context.state {
        StateName::Commanded => { released_while_commanded(at, from, instance, terminal, context) }
        StateName::Idle
        | StateName::Attaching
        | StateName::Preparing
        | StateName::Prepared
        | StateName::Frozen
        | StateName::Returning
        | StateName::Completing
        | StateName::Offered
        | StateName::Ready
        | StateName::Arrived
        | StateName::Serving => Row::ignores(at, terminal, DropReason::Unexpected),
    }
}

fn released_while_commanded<C: MessageCodec>(
    at: &Scope<'_, C>,
    from: NodeId,
    instance: u32,
    terminal: &Terminal,
    context: &Context,
) -> Result<Row, StepError>
    ensures { RowGives
        (xn_released_of (octet_way C.codec) at.now from instance terminal.now context.now
        StateName.Commanded context.now.attempt) result }
{
    let Some(attempt) = &context.attempt else {
        return Row::ignores(at, terminal, DropReason::Unexpected);
    };
    if !is_between_gnbs(attempt.kind) {
        return Row::ignores(at, terminal, DropReason::Unexpected);
    }
    let attempt = attempt.copy(at.alloc)?;
    handed_over(at, from, instance, terminal, context, attempt)
}

pub fn is_between_gnbs(kind: AttemptKind) -> bool
    ensures { result ≡ is_between_gnbs kind }
{
    match kind {
        AttemptKind::BetweenGnbs => true,
        AttemptKind::Attach | AttemptKind::BetweenDus | AttemptKind::Offer | AttemptKind::Return =>
            { false }
    }
}

/// Whether a terminal is served.
pub fn is_serving<C: MessageCodec>(_at: &Scope<'_, C>, state: StateName) -> bool
    ensures { result ≡ is_serving (octet_way C.codec) state }
{
    match state {
        StateName::Serving => true,
        StateName::Idle
        | StateName::Attaching
        | StateName::Preparing
        | StateName::Prepared
        | StateName::Frozen
        | StateName::Commanded
        | StateName::Returning
        | StateName::Completing
        | StateName::Offered
        | StateName::Ready
        | StateName::Arrived => false,
    }
}
