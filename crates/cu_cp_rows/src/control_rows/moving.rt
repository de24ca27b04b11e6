//! A handover between own DUs (TS 38.401, 8.2.1).

ghost use Rattle.std.specs.Prelude.{◌≡◌};
ghost use Rattle.unit_defs.specs.CuCpRows.{move_begins, move_has_uplinks, move_is_placed};
ghost use Rattle.unit_defs.specs.octet_defs.Codec.{octet_way};
ghost use Rattle.cu_cp_records.specs.control_actions.Rows.{RowGives};

use cu_cp_records::control_actions::actions::EPOCHS;
use cu_cp_records::control_actions::{Row, Scope};
use cu_cp_records::control_contexts::{Attempt, Context, Terminal};
use cu_cp_records::control_requests::{du_setup, uplinks_action};
use gnb_types::items::Items;
use gnb_types::plans::{Plan, TunnelList};
use gnb_types::results::beside;
use unit_defs::{AttemptKind, StateName};
use unit_messages::MessageCodec;
use unit_messages::steps::StepError;

/// It begins with further uplinks. The epoch is the one that was accepted last.
#[tactic(auto, unfolding(unit_defs::specs::CuCpRows::move_begins))]
pub fn move_begins<C: MessageCodec>(
    at: &Scope<'_, C>,
    goal: Plan,
    epoch: u32,
    terminal: &Terminal,
    context: &Context,
) -> Result<Row, StepError>
    ensures { RowGives
        (move_begins (octet_way C.codec) at.now goal epoch terminal.now context.now) result }
{
    let actions = Items::one(at.alloc, uplinks_action(at, context))?;
    let next = u64::from(epoch) + 1;
    let attempt = Attempt::new(at.alloc, AttemptKind::BetweenDus, next, context.up, goal.du);
    let context = context.attempted(StateName::Preparing, attempt);
    Ok(Row::keeps(terminal, actions, context))
}

/// Its uplinks are there: the target DU gets the context. Past the last epoch the counter is spent.
#[tactic(auto, unfolding(unit_defs::specs::CuCpRows::move_has_uplinks))]
pub fn move_has_uplinks<C: MessageCodec>(
    at: &Scope<'_, C>,
    uplinks: TunnelList,
    terminal: &Terminal,
    context: &Context,
    attempt: Attempt,
) -> Result<Row, StepError>
    ensures { RowGives
        (move_has_uplinks (octet_way C.codec) at.now uplinks terminal.now context.now attempt)
        result }
{
    if attempt.epoch > u64::from(u32::MAX) {
        drop(attempt);
        return Err(StepError::Spent { counter: EPOCHS });
    }
    let epoch = attempt.epoch as u32;
    let actions = Items::one(at.alloc, du_setup(at, context, attempt.du, epoch, uplinks));
    let (actions, attempt) = beside(actions, attempt)?;
    let context = context.attempted(StateName::Preparing, attempt);
    Ok(Row::keeps(terminal, actions, context))
}

/// The target DU is ready. Nothing was frozen, but the next step is the same.
#[tactic(auto, unfolding(unit_defs::specs::CuCpRows::move_is_placed))]
pub fn move_is_placed<C: MessageCodec>(
    at: &Scope<'_, C>,
    downlinks: TunnelList,
    terminal: &Terminal,
    context: &Context,
    mut attempt: Attempt,
) -> Result<Row, StepError>
    ensures { RowGives
        (move_is_placed (octet_way C.codec) downlinks terminal.now context.now attempt) result }
{
    attempt.downlinks = downlinks;
    let context = context.attempted(StateName::Frozen, attempt);
    Ok(Row::keeps(terminal, Items::new(at.alloc), context))
}
