//! Tokens of a terminal (TS 38.331, 5.3.5, 5.3.7) by which it returns, or arrives from the other gNB.

ghost use Rattle.std.specs.Prelude.{◌≡◌, [], ◌∷◌, map, true, IfOk};
ghost use Rattle.unit_defs.specs.CuCpRecords.{attempted};
ghost use Rattle.unit_defs.specs.CuCpRows.{is_between_dus, greatest, took, du_modify, path_switch, switch_action, give_up_attempt, returns, arrives, arrives_again};
ghost use Rattle.unit_defs.specs.octet_defs.Codec.{octet_way};
ghost use Rattle.cu_cp_records.specs.control_actions.Rows.{row_as, action_as, RowGives};

use cu_cp_records::control_actions::actions::Actions;
use cu_cp_records::control_actions::{Row, Scope, two, with_first};
use cu_cp_records::control_contexts::{Attempt, Context, Terminal, copy_tunnels};
use cu_cp_records::control_requests::{
    du_modify, du_release, path_switch, switch_action, xn_cancel,
};
use gnb_types::items::{Items, Memory};
use gnb_types::results::beside;
use unit_defs::{AttemptKind, StateName};
use unit_messages::MessageCodec;
use unit_messages::steps::StepError;

/// The greatest epoch of a token that was taken.
fn greatest<C: MessageCodec>(_at: &Scope<'_, C>, taken: Option<u32>, epoch: u32) -> Option<u32>
    ensures { result ≡ greatest (octet_way C.codec) taken epoch }
{
    match taken {
        Some(taken) => Some(taken.max(epoch)),
        None => Some(epoch),
    }
}

/// A row that takes a token of this epoch, and keeps a context.
pub(crate) fn took<C: MessageCodec>(
    at: &Scope<'_, C>,
    terminal: &Terminal,
    epoch: u32,
    actions: Actions,
    context: Context,
) -> Row
    ensures { row_as result
        ≡ took (octet_way C.codec) terminal.now epoch (map action_as actions) context }
{
    Row {
        actions,
        after: Terminal {
            context: Some(context),
            taken: greatest(at, terminal.taken, epoch),
        },
    }
}

pub fn is_between_dus(kind: AttemptKind) -> bool
    ensures { result ≡ is_between_dus kind }
{
    match kind {
        AttemptKind::BetweenDus => true,
        AttemptKind::Attach | AttemptKind::BetweenGnbs | AttemptKind::Offer | AttemptKind::Return =>
            { false }
    }
}

/// What was under way is given up.
fn give_up_attempt<C: MessageCodec>(
    at: &Scope<'_, C>,
    attempt: &Option<Attempt>,
) -> Result<Actions, Memory>
    ensures { IfOk result
        (λ actions. map action_as actions ≡ give_up_attempt (octet_way C.codec) at.now attempt.now) }
{
    let Some(attempt) = attempt else {
        return Ok(Items::new(at.alloc));
    };
    if is_between_dus(attempt.kind) {
        return Items::one(at.alloc, du_release(at, attempt.du, false));
    }
    Items::one(at.alloc, xn_cancel(at))
}

/// It is back at its DU: what was under way is given up.
#[tactic(auto, unfolding(unit_defs::specs::CuCpRows::returns))]
pub fn returns<C: MessageCodec>(
    at: &Scope<'_, C>,
    epoch: u32,
    terminal: &Terminal,
    context: &Context,
) -> Result<Row, StepError>
    ensures { RowGives
        (returns (octet_way C.codec) at.now epoch terminal.now context.now) result }
{
    let given_up = give_up_attempt(at, &context.attempt)?;
    let actions = with_first(at.alloc, du_modify(at, context.du, epoch), given_up)?;
    let attempt = Attempt::new(
        at.alloc,
        AttemptKind::Return,
        u64::from(epoch),
        context.up,
        context.du,
    );
    let context = context.attempted(StateName::Returning, attempt);
    Ok(took(at, terminal, epoch, actions, context))
}

/// The bearers are switched, and so is the path from the core.
fn says_of_arrival<C: MessageCodec>(
    at: &Scope<'_, C>,
    context: &Context,
    attempt: &Attempt,
) -> Result<Actions, Memory>
    ensures { IfOk result (λ actions. map action_as actions
        ≡ switch_action (octet_way C.codec) at.now context.now attempt.now.downlinks
        ∷ path_switch (octet_way C.codec) at.now context.now attempt.now ∷ []) }
{
    let downlinks = copy_tunnels(at.alloc, &attempt.downlinks)?;
    let path = path_switch(at, context, attempt)?;
    two(at.alloc, switch_action(at, context, downlinks), path)
}

/// The context once its terminal arrived: the path switch is open.
fn arrived(context: &Context, mut attempt: Attempt) -> Context
    ensures { result
        ≡ attempted context.now StateName.Arrived (record attempt { path_open = true }) }
{
    attempt.path_open = true;
    context.attempted(StateName::Arrived, attempt)
}

/// It arrived at a target of the other gNB.
#[tactic(auto, unfolding(unit_defs::specs::CuCpRows::arrives))]
pub fn arrives<C: MessageCodec>(
    at: &Scope<'_, C>,
    epoch: u32,
    terminal: &Terminal,
    context: &Context,
    attempt: Attempt,
) -> Result<Row, StepError>
    ensures { RowGives
        (arrives (octet_way C.codec) at.now epoch terminal.now context.now attempt) result }
{
    let (actions, attempt) = beside(says_of_arrival(at, context, &attempt), attempt)?;
    Ok(took(at, terminal, epoch, actions, arrived(context, attempt)))
}

/// The DU is to take a terminal of this epoch, and the path from the core is switched.
fn says_of_arrival_again<C: MessageCodec>(
    at: &Scope<'_, C>,
    epoch: u32,
    context: &Context,
    attempt: &Attempt,
) -> Result<Actions, Memory>
    ensures { IfOk result (λ actions. map action_as actions
        ≡ du_modify (octet_way C.codec) at.now context.now.du epoch
        ∷ path_switch (octet_way C.codec) at.now context.now attempt.now ∷ []) }
{
    let path = path_switch(at, context, attempt)?;
    two(at.alloc, du_modify(at, context.du, epoch), path)
}

/// It arrived there, and lost its radio before that was known.
#[tactic(auto, unfolding(unit_defs::specs::CuCpRows::arrives_again))]
pub fn arrives_again<C: MessageCodec>(
    at: &Scope<'_, C>,
    epoch: u32,
    terminal: &Terminal,
    context: &Context,
    attempt: Attempt,
) -> Result<Row, StepError>
    ensures { RowGives
        (arrives_again (octet_way C.codec) at.now epoch terminal.now context.now attempt) result }
{
    let actions = says_of_arrival_again(at, epoch, context, &attempt);
    let (actions, mut attempt) = beside(actions, attempt)?;
    attempt.epoch = u64::from(epoch);
    Ok(took(at, terminal, epoch, actions, arrived(context, attempt)))
}
