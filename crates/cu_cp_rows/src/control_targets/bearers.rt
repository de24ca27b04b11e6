//! Lists that name the bearers of a context.

ghost use Rattle.std.specs.Prelude.{◌≡◌, IfOk};
ghost use Rattle.unit_defs.specs.Messages.{are_bearers, statuses_of};
ghost use Rattle.unit_defs.specs.CuCpRecords.{bearers_in};
ghost use Rattle.unit_defs.specs.CuCpRows.{name_bearers};

use cu_cp_records::control_contexts::Context;
use gnb_types::items::{Items, Memory};
use gnb_types::names::BearerId;
use gnb_types::plans::{StatusList, TunnelList};
use std::alloc::Global;

/// Whether these are the bearers of the context, ascending, each once.
fn are_bearers(context: &Context, bearers: &[BearerId]) -> bool
    ensures { result ≡ are_bearers (bearers_in context.now) bearers.now }
{
    if bearers.len() != usize::from(context.bearers) {
        return false;
    }
    let mut next: usize = 1;
    for bearer in bearers {
        if usize::from(bearer.0) != next {
            return false;
        }
        next += 1;
    }
    true
}

/// Whether these tunnels name the bearers of the context, ascending, each once.
pub fn name_bearers(alloc: Global, context: &Context, tunnels: &TunnelList) -> Result<bool, Memory>
    ensures { IfOk result (λ named. named ≡ name_bearers context.now tunnels.now) }
{
    let bearers: Vec<BearerId> = tunnels
        .as_slice()
        .iter()
        .copied()
        .map(|tunnel| tunnel.bearer)
        .collect(alloc)?;
    Ok(are_bearers(context, bearers.as_slice()))
}

/// Whether these statuses name the bearers of the context, ascending, each once.
pub fn statuses_name_bearers(
    alloc: Global,
    context: &Context,
    statuses: &StatusList,
) -> Result<bool, Memory>
    ensures { IfOk result
        (λ named. named ≡ are_bearers (bearers_in context.now) (statuses_of statuses.now)) }
{
    let mut bearers = Items::new(alloc);
    for status in statuses.as_slice() {
        bearers.push(status.bearer)?;
    }
    Ok(are_bearers(context, bearers.as_slice()))
}
