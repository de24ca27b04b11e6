//! The attached terminals and their bearers, in order.

ghost use Rattle.std.specs.Prelude.{◌≡◌, ◌-◌, ◌+◌, ◌++◌, map, IfOk, OnOk};
ghost use Rattle.run_defs.specs.Settling.{attached_plans, attached_bearers};
ghost use Rattle.run_defs.specs.UnitRuns.{Records};
ghost use Rattle.run_links.specs.Networks.{OctetCore, state_of};
ghost use Rattle.world.specs.turns.Turns.{bearers_to, bearers_there, terminals_there};

use gnb_types::items::{Items, Memory};
use gnb_types::names::{BearerId, UeId};
use run_links::network::Network;
use std::alloc::Global;

/// Puts a terminal at the end, where it isn't gone.
fn push_terminal(terminals: &mut Items<UeId>, network: &Network, ue: UeId) -> Result<(), Memory>
    ensures { OnOk result (terminals.new ≡ terminals.old ++ terminals_there network.now.gone ue) }
{
    if network.is_gone(ue) {
        return Ok(());
    }
    terminals.push(ue)
}

/// The attached terminals.
pub fn attached_terminals(alloc: Global, network: &Network) -> Result<Items<UeId>, Memory>
    ensures { IfOk result (λ ues. (units : Records) (core : OctetCore)
        → ues ≡ map (λ e. e.0) (attached_plans (state_of units core network.now))) }
{
    let mut terminals = Items::new(alloc);
    for (ue, _) in network.plans.iter() {
        push_terminal(&mut terminals, network, *ue)?;
    }
    Ok(terminals)
}

/// Puts the bearers of a terminal at the end.
fn push_bearers(bearers: &mut Items<(UeId, BearerId)>, ue: UeId, count: u8) -> Result<(), Memory>
    ensures { OnOk result (bearers.new ≡ bearers.old ++ bearers_to ue count) }
{
    for before in 0..count {
        bearers.push((ue, BearerId(before + 1)))?;
    }
    Ok(())
}

/// The same where the terminal isn't gone.
fn push_there(
    bearers: &mut Items<(UeId, BearerId)>,
    network: &Network,
    ue: UeId,
    count: u8,
) -> Result<(), Memory>
    ensures { OnOk result (bearers.new ≡ bearers.old ++ bearers_there network.now.gone ue count) }
{
    if network.is_gone(ue) {
        return Ok(());
    }
    push_bearers(bearers, ue, count)
}

/// The bearers of the attached terminals.
pub fn attached_bearers(alloc: Global, network: &Network) -> Result<Items<(UeId, BearerId)>, Memory>
    ensures { IfOk result (λ bearers. (units : Records) (core : OctetCore)
        → bearers ≡ attached_bearers (state_of units core network.now)) }
{
    let mut bearers = Items::new(alloc);
    for (ue, plan) in network.plans.iter() {
        push_there(&mut bearers, network, *ue, plan.bearers)?;
    }
    Ok(bearers)
}
