//! An attach (TS 38.401, 8.1): the bearers get their tunnels, then the DU gets the context.

ghost use Rattle.std.specs.Prelude.{◌≡◌, [], ◌∷◌, ◌&&◌, map, IfOk};
ghost use Rattle.unit_defs.specs.CuCpRecords.{has_unit};
ghost use Rattle.unit_defs.specs.CuCpRows.{own_up, own_du, command_action, attach_context as attach_context_of, attach, attach_begins, attach_has_tunnels, attach_is_placed, attach_fails};
ghost use Rattle.unit_defs.specs.octet_defs.Codec.{octet_way};
ghost use Rattle.cu_cp_records.specs.control_actions.Rows.{action_as, RowGives};

use cu_cp_records::control_actions::actions::{Action, Actions};
use cu_cp_records::control_actions::{Row, Scope, command_action};
use cu_cp_records::control_contexts::{Attempt, Context, Terminal, has_node};
use cu_cp_records::control_requests::{bearer_setup, du_setup};
use gnb_types::items::{Items, Memory};
use gnb_types::names::NodeId;
use gnb_types::plans::{Plan, TunnelList};
use gnb_types::reasons::{CauseName, RefuseReason};
use gnb_types::results::beside;
use unit_defs::{AttemptKind, StateName};
use unit_messages::MessageCodec;
use unit_messages::steps::StepError;

/// The epoch of an attach.
const FIRST: u32 = 1;

/// A terminal asks for service: it has no context, and its units are set up.
#[tactic(auto, unfolding(unit_defs::specs::CuCpRows::attach))]
pub fn attach<C: MessageCodec>(
    at: &Scope<'_, C>,
    plan: Plan,
    terminal: &Terminal,
) -> Result<Row, StepError>
    ensures { RowGives (attach (octet_way C.codec) at.now plan terminal.now) result }
{
    match &terminal.context {
        None => attach_begins(at, plan, terminal),
        Some(_) => Row::refuses(at, terminal, RefuseReason::Attached),
    }
}

/// Whether the units of a place are set up.
fn has_units<C>(at: &Scope<'_, C>, up: u8, du: u8) -> bool
    ensures { result
        ≡ (has_unit at.now.units (own_up at.now up) && has_unit at.now.units (own_du at.now du)) }
{
    has_node(at.units, NodeId::CuUp(at.gnb, up)) && has_node(at.units, NodeId::Du(at.gnb, du))
}

fn attach_begins<C: MessageCodec>(
    at: &Scope<'_, C>,
    plan: Plan,
    terminal: &Terminal,
) -> Result<Row, StepError>
    ensures { RowGives (attach_begins (octet_way C.codec) at.now plan terminal.now) result }
{
    if !has_units(at, plan.up, plan.du) {
        return Row::refuses(at, terminal, RefuseReason::NotStarted);
    }
    let context = attach_context(at, plan);
    let actions = Items::one(at.alloc, bearer_setup(at, &context, false));
    let (actions, context) = beside(actions, context)?;
    Ok(Row::keeps(terminal, actions, context))
}

/// The context of an attach: no epoch was accepted yet.
fn attach_context<C: MessageCodec>(at: &Scope<'_, C>, plan: Plan) -> Context
    ensures { result ≡ attach_context_of (octet_way C.codec) plan }
{
    let attempt = Attempt::new(
        at.alloc,
        AttemptKind::Attach,
        u64::from(FIRST),
        plan.up,
        plan.du,
    );
    Context {
        state: StateName::Attaching,
        epoch: Some(0),
        finished: false,
        up: plan.up,
        du: plan.du,
        sn: plan.sn,
        bearers: plan.bearers,
        quota: plan.quota,
        by_xn: false,
        attempt: Some(attempt),
    }
}

/// Its tunnels are there: the DU gets the context of epoch 1.
#[tactic(auto, unfolding(unit_defs::specs::CuCpRows::attach_has_tunnels))]
pub fn attach_has_tunnels<C: MessageCodec>(
    at: &Scope<'_, C>,
    uplinks: TunnelList,
    n3: TunnelList,
    terminal: &Terminal,
    context: &Context,
    mut attempt: Attempt,
) -> Result<Row, StepError>
    ensures { RowGives
        (attach_has_tunnels (octet_way C.codec) at.now uplinks n3 terminal.now context.now attempt)
        result }
{
    attempt.n3 = n3;
    let actions = Items::one(at.alloc, du_setup(at, context, context.du, FIRST, uplinks));
    let (actions, attempt) = beside(actions, attempt)?;
    let context = context.attempted(StateName::Attaching, attempt);
    Ok(Row::keeps(terminal, actions, context))
}

/// The command of an attempt, and nothing else.
pub(crate) fn only_command<C: MessageCodec>(
    at: &Scope<'_, C>,
    context: &Context,
    attempt: &Attempt,
) -> Result<Actions, Memory>
    ensures { IfOk result (λ actions. map action_as actions
        ≡ command_action (octet_way C.codec) at.now context.now attempt.now ∷ []) }
{
    let command = command_action(at, context, attempt)?;
    Items::one(at.alloc, command)
}

/// The DU is ready: the command.
#[tactic(auto, unfolding(unit_defs::specs::CuCpRows::attach_is_placed))]
pub fn attach_is_placed<C: MessageCodec>(
    at: &Scope<'_, C>,
    downlinks: TunnelList,
    terminal: &Terminal,
    context: &Context,
    mut attempt: Attempt,
) -> Result<Row, StepError>
    ensures { RowGives
        (attach_is_placed (octet_way C.codec) at.now downlinks terminal.now context.now attempt)
        result }
{
    attempt.downlinks = downlinks;
    let (actions, attempt) = beside(only_command(at, context, &attempt), attempt)?;
    let context = context.attempted(StateName::Commanded, attempt);
    Ok(Row::keeps(terminal, actions, context))
}

/// The CU-UP could not set up the bearers.
#[tactic(auto, unfolding(unit_defs::specs::CuCpRows::attach_fails))]
pub fn attach_fails<C: MessageCodec>(
    at: &Scope<'_, C>,
    cause: CauseName,
    terminal: &Terminal,
) -> Result<Row, StepError>
    ensures { RowGives (attach_fails (octet_way C.codec) cause terminal.now) result }
{
    let actions = Items::one(at.alloc, Action::Fail(cause))?;
    Ok(Row::gives_up(terminal, actions))
}
