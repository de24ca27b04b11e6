//! Tokens of a terminal by which it arrives at the target of an attach or of a handover between own DUs.

ghost use Rattle.std.specs.Prelude.{◌≡◌, ◌∷◌, map, Some, false, IfOk};
ghost use Rattle.unit_defs.specs.CuCpRecords.{attempted};
ghost use Rattle.unit_defs.specs.CuCpRows.{leave_old, leave_old_again, opens_path, switch_action, completes, completes_again};
ghost use Rattle.unit_defs.specs.octet_defs.Codec.{octet_way};
ghost use Rattle.cu_cp_records.specs.control_actions.Rows.{action_as, RowGives};

use crate::control_targets::returning::took;
use cu_cp_records::control_actions::actions::{Action, Actions};
use cu_cp_records::control_actions::{Row, Scope, two, with_first};
use cu_cp_records::control_contexts::{Attempt, Context, Terminal, copy_tunnels};
use cu_cp_records::control_requests::{du_modify, du_release, path_switch, switch_action};
use gnb_types::items::{Items, Memory};
use gnb_types::plans::TunnelList;
use gnb_types::results::beside;
use unit_defs::{AttemptKind, StateName};
use unit_messages::MessageCodec;
use unit_messages::steps::StepError;

/// Whether an attempt opens the path from the core.
fn opens_path<C: MessageCodec>(_at: &Scope<'_, C>, kind: AttemptKind) -> bool
    ensures { result ≡ opens_path (octet_way C.codec) kind }
{
    match kind {
        AttemptKind::Attach => true,
        AttemptKind::BetweenDus
        | AttemptKind::BetweenGnbs
        | AttemptKind::Offer
        | AttemptKind::Return => false,
    }
}

/// An attach opens the path from the core; in a handover the old DU lets go.
fn leave_old<C: MessageCodec>(
    at: &Scope<'_, C>,
    old: &Context,
    epoch: u32,
    attempt: &Attempt,
) -> Result<Actions, Memory>
    ensures { IfOk result (λ actions. map action_as actions
        ≡ leave_old (octet_way C.codec) at.now old.now
        (record old.now { du = attempt.now.du; epoch = Some epoch; finished = false }) attempt.now
        attempt.now.kind) }
{
    match attempt.kind {
        AttemptKind::Attach => {
            let path = path_switch(at, old, attempt)?;
            Items::one(at.alloc, path)
        }
        AttemptKind::BetweenDus
        | AttemptKind::BetweenGnbs
        | AttemptKind::Offer
        | AttemptKind::Return => Items::one(at.alloc, du_release(at, old.du, false)),
    }
}

/// The switch of the bearers to this DU.
fn say_switch_to<C: MessageCodec>(
    at: &Scope<'_, C>,
    old: &Context,
    du: u8,
    downlinks: TunnelList,
) -> Action
    ensures { action_as result
        ≡ switch_action (octet_way C.codec) at.now (record old.now { du = du }) downlinks }
{
    let mut there = old.serving();
    there.du = du;
    switch_action(at, &there, downlinks)
}

/// The bearers are switched to the DU of the attempt, and the old one lets go.
fn says_of_completion<C: MessageCodec>(
    at: &Scope<'_, C>,
    old: &Context,
    epoch: u32,
    attempt: &Attempt,
) -> Result<Actions, Memory>
    ensures { IfOk result (λ actions. map action_as actions
        ≡ switch_action (octet_way C.codec) at.now (record old.now { du = attempt.now.du })
        attempt.now.downlinks
        ∷ leave_old (octet_way C.codec) at.now old.now
        (record old.now { du = attempt.now.du; epoch = Some epoch; finished = false }) attempt.now
        attempt.now.kind) }
{
    let left = leave_old(at, old, epoch, attempt)?;
    let downlinks = copy_tunnels(at.alloc, &attempt.downlinks)?;
    with_first(
        at.alloc,
        say_switch_to(at, old, attempt.du, downlinks),
        left,
    )
}

/// The context at the DU of the attempt.
fn moved(old: &Context, state: StateName, attempt: Attempt) -> Context
    ensures { result ≡ attempted (record old.now { du = attempt.du }) state attempt }
{
    let du = attempt.du;
    let mut there = old.attempted(state, attempt);
    there.du = du;
    there
}

/// It arrived: the bearers are switched, and the old DU lets go.
#[tactic(auto, unfolding(unit_defs::specs::CuCpRows::completes))]
pub fn completes<C: MessageCodec>(
    at: &Scope<'_, C>,
    epoch: u32,
    terminal: &Terminal,
    context: &Context,
    attempt: Attempt,
) -> Result<Row, StepError>
    ensures { RowGives
        (completes (octet_way C.codec) at.now epoch terminal.now context.now attempt) result }
{
    let actions = says_of_completion(at, context, epoch, &attempt);
    let (actions, mut attempt) = beside(actions, attempt)?;
    attempt.path_open = opens_path(at, attempt.kind);
    let mut there = moved(context, StateName::Completing, attempt);
    there.epoch = Some(epoch);
    there.finished = false;
    Ok(took(at, terminal, epoch, actions, there))
}

fn leave_old_again<C: MessageCodec>(
    at: &Scope<'_, C>,
    old: &Context,
    epoch: u32,
    attempt: &Attempt,
) -> Result<Actions, Memory>
    ensures { IfOk result (λ actions. map action_as actions
        ≡ leave_old_again (octet_way C.codec) at.now old.now
        (record old.now { du = attempt.now.du }) attempt.now attempt.now.kind epoch) }
{
    match attempt.kind {
        AttemptKind::Attach => {
            let path = path_switch(at, old, attempt)?;
            two(at.alloc, du_modify(at, attempt.du, epoch), path)
        }
        AttemptKind::BetweenDus
        | AttemptKind::BetweenGnbs
        | AttemptKind::Offer
        | AttemptKind::Return => two(
            at.alloc,
            du_release(at, old.du, false),
            du_modify(at, attempt.du, epoch),
        ),
    }
}

/// It arrived there, and lost its radio before that was known.
#[tactic(auto, unfolding(unit_defs::specs::CuCpRows::completes_again))]
pub fn completes_again<C: MessageCodec>(
    at: &Scope<'_, C>,
    epoch: u32,
    terminal: &Terminal,
    context: &Context,
    attempt: Attempt,
) -> Result<Row, StepError>
    ensures { RowGives
        (completes_again (octet_way C.codec) at.now epoch terminal.now context.now attempt)
        result }
{
    let actions = leave_old_again(at, context, epoch, &attempt);
    let (actions, mut attempt) = beside(actions, attempt)?;
    attempt.epoch = u64::from(epoch);
    attempt.path_open = opens_path(at, attempt.kind);
    Ok(took(
        at,
        terminal,
        epoch,
        actions,
        moved(context, StateName::Returning, attempt),
    ))
}
