//! After an arrival or a return: the switch, the acceptance and the path switch.

ghost use Rattle.std.specs.Prelude.{◌≡◌, [], ◌∷◌, map, true, Some, IfOk, if◌then◌else◌};
ghost use Rattle.unit_defs.specs.CuCpRecords.{attempted, serving};
ghost use Rattle.unit_defs.specs.CuCpRows.{accepted_action, place_is_renewed, is_switched, let_source_go, path_is_switched};
ghost use Rattle.unit_defs.specs.octet_defs.Codec.{octet_way};
ghost use Rattle.cu_cp_records.specs.control_actions.Rows.{action_as, RowGives};

use cu_cp_records::control_actions::actions::Actions;
use cu_cp_records::control_actions::{Row, Scope, accepted_action, told_epoch};
use cu_cp_records::control_contexts::{Attempt, Context, Terminal};
use cu_cp_records::control_requests::{source_release, switch_action};
use gnb_types::items::{Items, Memory};
use gnb_types::plans::TunnelList;
use gnb_types::results::beside;
use unit_defs::StateName;
use unit_messages::MessageCodec;
use unit_messages::steps::StepError;

/// The DU has new downlinks: the switch.
#[tactic(auto, unfolding(unit_defs::specs::CuCpRows::place_is_renewed))]
pub fn place_is_renewed<C: MessageCodec>(
    at: &Scope<'_, C>,
    downlinks: TunnelList,
    terminal: &Terminal,
    context: &Context,
    attempt: Attempt,
) -> Result<Row, StepError>
    ensures { RowGives
        (place_is_renewed (octet_way C.codec) at.now downlinks terminal.now context.now attempt)
        result }
{
    let actions = Items::one(at.alloc, switch_action(at, context, downlinks));
    let (actions, attempt) = beside(actions, attempt)?;
    let context = context.attempted(context.state, attempt);
    Ok(Row::keeps(terminal, actions, context))
}

/// The attempt of a context that is over ends.
fn ended_where(is_over: bool, context: Context) -> Context
    ensures { result ≡ (if is_over then serving context else context) }
{
    if !is_over {
        return context;
    }
    let over = context.serving();
    drop(context);
    over
}

/// The acceptance of the attempt's epoch, and that epoch.
fn acceptance<C: MessageCodec>(
    at: &Scope<'_, C>,
    context: &Context,
    epoch: u64,
) -> Result<(Actions, u32), Memory>
    ensures actions { IfOk result (λ pair. map action_as pair.0
        ≡ accepted_action (octet_way C.codec) at.now context.now epoch ∷ []) }
    ensures epoch { IfOk result (λ pair. pair.1 ≡ epoch) }
{
    let epoch = told_epoch(epoch)?;
    let actions = Items::one(at.alloc, accepted_action(at, context, epoch)?)?;
    Ok((actions, epoch))
}

/// A context whose bearers were switched, with its accepted epoch.
fn accepted(context: &Context, epoch: u32, mut attempt: Attempt) -> Context
    ensures { result ≡ attempted (record context.now { epoch = Some epoch; finished = true })
        context.now.state (record attempt { switched = true }) }
{
    attempt.switched = true;
    let mut after = context.attempted(context.state, attempt);
    after.epoch = Some(epoch);
    after.finished = true;
    after
}

/// The bearers were switched: the epoch is accepted. It is over where no path switch is open.
#[tactic(auto, unfolding(unit_defs::specs::CuCpRows::is_switched))]
pub fn is_switched<C: MessageCodec>(
    at: &Scope<'_, C>,
    terminal: &Terminal,
    context: &Context,
    attempt: Attempt,
) -> Result<Row, StepError>
    ensures { RowGives
        (is_switched (octet_way C.codec) at.now terminal.now context.now attempt) result }
{
    let ((actions, epoch), attempt) = beside(acceptance(at, context, attempt.epoch), attempt)?;
    let is_over = !attempt.path_open;
    let context = ended_where(is_over, accepted(context, epoch, attempt));
    Ok(Row::keeps(terminal, actions, context))
}

/// The source of a handover is let go, once its terminal has arrived here.
fn let_source_go<C: MessageCodec>(at: &Scope<'_, C>, state: StateName) -> Result<Actions, Memory>
    ensures { IfOk result
        (λ actions. map action_as actions ≡ let_source_go (octet_way C.codec) at.now state) }
{
    match state {
        StateName::Arrived => Items::one(at.alloc, source_release(at)),
        StateName::Idle
        | StateName::Attaching
        | StateName::Preparing
        | StateName::Prepared
        | StateName::Frozen
        | StateName::Commanded
        | StateName::Returning
        | StateName::Completing
        | StateName::Offered
        | StateName::Ready
        | StateName::Serving => Ok(Items::new(at.alloc)),
    }
}

/// The core has switched the path: a source between gNBs is let go. It is over where the bearers were switched.
#[tactic(auto, using(crate::proofs::control_targets::Over::over_where), unfolding(unit_defs::specs::CuCpRows::path_is_switched))]
pub fn path_is_switched<C: MessageCodec>(
    at: &Scope<'_, C>,
    terminal: &Terminal,
    context: &Context,
    attempt: Attempt,
) -> Result<Row, StepError>
    ensures { RowGives
        (path_is_switched (octet_way C.codec) at.now terminal.now context.now attempt) result }
{
    let (actions, mut attempt) = beside(let_source_go(at, context.state), attempt)?;
    attempt.path_open = false;
    let is_over = attempt.switched;
    let context = context.attempted(context.state, attempt);
    Ok(Row::keeps(terminal, actions, ended_where(is_over, context)))
}
