//! What the source of a handover says to its target after the offer (TS 38.423, 8.2.2, 8.2.3): the SN status, or that it is cancelled.

ghost use Rattle.std.specs.Prelude.{◌≡◌, ◌&&◌, ◌++◌, [], ◌∷◌, map, true, false, Some, IfOk};
ghost use Rattle.unit_defs.specs.CuCpRows.{takes_status, status, status_on, du_release_if, cu_up_release as up_release_of, is_cancellable, offer_cancelled, xn_cancelled, xn_cancelled_of};
ghost use Rattle.unit_defs.specs.CuCpRecords.{bearers_in};
ghost use Rattle.unit_defs.specs.Messages.{are_bearers, statuses_of};
ghost use Rattle.unit_defs.specs.octet_defs.Codec.{octet_way};
ghost use Rattle.cu_cp_records.specs.control_actions.Rows.{action_as, RowGives};

use crate::control_targets::bearers::statuses_name_bearers;
use cu_cp_records::control_actions::actions::{Action, Actions};
use cu_cp_records::control_actions::{Row, Scope, two, with_first};
use cu_cp_records::control_contexts::{Attempt, Context, Terminal};
use cu_cp_records::control_requests::{
    cu_up_release, du_release, status_action, transport_confirm,
};
use gnb_types::items::{Items, Memory};
use gnb_types::names::NodeId;
use gnb_types::plans::StatusList;
use gnb_types::reasons::DropReason;
use unit_defs::StateName;
use unit_messages::MessageCodec;
use unit_messages::steps::StepError;

// ---- the SN status

/// Whether a context is that of a target that is ready, or later.
fn takes_status<C: MessageCodec>(_at: &Scope<'_, C>, context: &Context) -> bool
    ensures { result ≡ takes_status (octet_way C.codec) context.now }
{
    if !context.by_xn {
        return false;
    }
    match context.state {
        StateName::Offered => false,
        StateName::Idle
        | StateName::Attaching
        | StateName::Preparing
        | StateName::Prepared
        | StateName::Frozen
        | StateName::Commanded
        | StateName::Returning
        | StateName::Completing
        | StateName::Ready
        | StateName::Arrived
        | StateName::Serving => true,
    }
}

/// The SN status goes to the CU-UP of a target that is ready, or later.
#[tactic(auto, unfolding(unit_defs::specs::CuCpRows::status))]
pub fn status<C: MessageCodec>(
    at: &Scope<'_, C>,
    from: NodeId,
    instance: u32,
    statuses: StatusList,
    terminal: &Terminal,
) -> Result<Row, StepError>
    ensures { RowGives
        (status (octet_way C.codec) at.now from instance statuses terminal.now) result }
{
    match &terminal.context {
        Some(context) => status_of(at, from, instance, statuses, terminal, context),
        None => Row::ignores(at, terminal, DropReason::NoContext),
    }
}

/// Whether a context takes these statuses: they name its bearers.
fn takes_these<C: MessageCodec>(
    at: &Scope<'_, C>,
    context: &Context,
    statuses: &StatusList,
) -> Result<bool, Memory>
    ensures { IfOk result (λ takes. takes ≡ (takes_status (octet_way C.codec) context.now
        && are_bearers (bearers_in context.now) (statuses_of statuses.now))) }
{
    Ok(takes_status(at, context) && statuses_name_bearers(at.alloc, context, statuses)?)
}

fn status_of<C: MessageCodec>(
    at: &Scope<'_, C>,
    from: NodeId,
    instance: u32,
    statuses: StatusList,
    terminal: &Terminal,
    context: &Context,
) -> Result<Row, StepError>
    ensures { RowGives
        (status_on (octet_way C.codec) at.now from instance statuses terminal.now
        (Some context.now)) result }
{
    if !takes_these(at, context, &statuses)? {
        return Row::ignores(at, terminal, DropReason::Unexpected);
    }
    let confirm = transport_confirm(at, from, instance);
    let actions = two(at.alloc, confirm, status_action(at, context, statuses))?;
    let row = Row::stays(at.alloc, terminal, actions)?;
    Ok(row)
}

// ---- a cancel

/// Whether the target of a handover still awaits the terminal.
fn is_cancellable<C: MessageCodec>(_at: &Scope<'_, C>, state: StateName) -> bool
    ensures { result ≡ is_cancellable (octet_way C.codec) state }
{
    match state {
        StateName::Offered | StateName::Ready => true,
        StateName::Idle
        | StateName::Attaching
        | StateName::Preparing
        | StateName::Prepared
        | StateName::Frozen
        | StateName::Commanded
        | StateName::Returning
        | StateName::Completing
        | StateName::Arrived
        | StateName::Serving => false,
    }
}

/// The units that an offer has begun are released for good: the DU, where it was asked, and the CU-UP.
fn releases_of_offer<C: MessageCodec>(
    at: &Scope<'_, C>,
    context: &Context,
    du_begun: bool,
) -> Result<Actions, Memory>
    ensures { IfOk result (λ actions. map action_as actions
        ≡ du_release_if (octet_way C.codec) at.now context.now du_begun
        ++ up_release_of (octet_way C.codec) at.now context.now.up true false ∷ []) }
{
    let of_up = cu_up_release(at, context.up, true, false);
    if du_begun {
        return two(at.alloc, du_release(at, context.du, false), of_up);
    }
    Items::one(at.alloc, of_up)
}

fn offer_cancelled<C: MessageCodec>(
    at: &Scope<'_, C>,
    from: NodeId,
    instance: u32,
    terminal: &Terminal,
    context: &Context,
    attempt: &Attempt,
) -> Result<Row, StepError>
    ensures { RowGives
        (offer_cancelled (octet_way C.codec) at.now from instance terminal.now context.now
        attempt.now) result }
{
    let releases = releases_of_offer(at, context, attempt.du_begun)?;
    let confirmed = with_first(at.alloc, transport_confirm(at, from, instance), releases)?;
    let actions = with_first(at.alloc, Action::Forget, confirmed)?;
    Ok(Row::gives_up(terminal, actions))
}

/// The source cancels: the units that were begun are released; in any other state it is only confirmed.
#[tactic(auto, unfolding(unit_defs::specs::CuCpRows::xn_cancelled))]
pub fn xn_cancelled<C: MessageCodec>(
    at: &Scope<'_, C>,
    from: NodeId,
    instance: u32,
    terminal: &Terminal,
) -> Result<Row, StepError>
    ensures { RowGives
        (xn_cancelled (octet_way C.codec) at.now from instance terminal.now) result }
{
    match &terminal.context {
        Some(context) => xn_cancelled_of(at, from, instance, terminal, context),
        None => Row::only_says(at, terminal, transport_confirm(at, from, instance)),
    }
}

fn xn_cancelled_of<C: MessageCodec>(
    at: &Scope<'_, C>,
    from: NodeId,
    instance: u32,
    terminal: &Terminal,
    context: &Context,
) -> Result<Row, StepError>
    ensures { RowGives
        (xn_cancelled_of (octet_way C.codec) at.now from instance terminal.now context.now
        context.now.attempt) result }
{
    let Some(attempt) = &context.attempt else {
        return Row::only_says(at, terminal, transport_confirm(at, from, instance));
    };
    if is_cancellable(at, context.state) {
        return offer_cancelled(at, from, instance, terminal, context, attempt);
    }
    Row::only_says(at, terminal, transport_confirm(at, from, instance))
}
