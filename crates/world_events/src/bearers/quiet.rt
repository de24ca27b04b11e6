//! Whether a bearer is quiet: all is at rest, and nothing of it stands anywhere.

ghost use Rattle.std.specs.Prelude.{◌≡◌, ◌==◌, ◌&&◌, length, Some};
ghost use Rattle.transport_defs.specs.Links.{tunnel_items, radio_items};
ghost use Rattle.unit_defs.specs.Ue.{is_connected};
ghost use Rattle.run_defs.specs.Units.{is_attempt, has_attempt, requests_rest};
ghost use Rattle.run_defs.specs.States.{entity};
ghost use Rattle.run_defs.specs.Conditions.{is_at_rest, links_are_empty, is_quiet_with, rests};
ghost use Rattle.run_defs.specs.UnitRuns.{Records};
ghost use Rattle.run_links.specs.Networks.{OctetCore, state_of};

use gnb_types::names::{BearerId, Dir, Gnb, UeId};
use run_links::network::Network;
use ue_node::UeNode;
use unit_defs::{StateName, UeState};
use unit_messages::MessageCodec;
use world_steps::Units;
use world_steps::run_state::RunState;

fn is_connected(state: UeState) -> bool
    ensures { result ≡ is_connected state }
{
    matches!(state, UeState::Connected)
}

/// Whether a CU-CP is at an attempt in this state.
fn is_attempt(state: StateName) -> bool
    ensures { result ≡ is_attempt state }
{
    !matches!(state, StateName::Idle | StateName::Serving)
}

/// Whether a CU-CP is at an attempt of a terminal.
fn has_attempt<U: Units<C> + Drop, C: MessageCodec + Drop>(
    run_state: &RunState<U, C>,
    ue: UeId,
) -> bool
    requires { U.ready run_state.now.units }
    ensures { result ≡ has_attempt (U.records run_state.now.units) ue }
{
    is_attempt(run_state.units.cu_control(Gnb::A).state(ue))
        || is_attempt(run_state.units.cu_control(Gnb::B).state(ue))
}

/// Whether no request of a terminal is open or waits.
fn requests_rest<U: Units<C> + Drop, C: MessageCodec + Drop>(
    run_state: &RunState<U, C>,
    ue: UeId,
) -> bool
    requires { U.ready run_state.now.units }
    ensures { result ≡ requests_rest (U.records run_state.now.units) ue }
{
    run_state.units.cu_control(Gnb::A).rests(ue) && run_state.units.cu_control(Gnb::B).rests(ue)
}

/// Whether a terminal is connected, and nobody is at work for it.
fn is_at_rest<U: Units<C> + Drop, C: MessageCodec + Drop>(
    run_state: &RunState<U, C>,
    ue: UeId,
    terminal: &UeNode,
) -> bool
    requires { U.ready run_state.now.units }
    ensures { result ≡ is_at_rest (state_of (U.records run_state.now.units) run_state.now.core run_state.now.network) ue terminal.now.node }
{
    is_connected(terminal.state())
        && !has_attempt(run_state, ue)
        && run_state.network.bag.in_flight(Some(ue.0)) == 0
        && requests_rest(run_state, ue)
}

/// Whether nothing of a bearer and direction stands on a tunnel or a radio.
fn stands_nowhere(network: &Network, ue: UeId, bearer: BearerId, dir: Dir) -> bool
    ensures { result ≡ (length (tunnel_items (entity ue bearer dir) network.now.tunnels.tunnels) == 0
        && length (radio_items (entity ue bearer dir) network.now.radios.radios) == 0) }
{
    let (on_tunnels, _) = network.tunnels.standing(ue, bearer, dir);
    let (on_radios, _) = network.radios.standing(ue, bearer, dir);
    on_tunnels == 0 && on_radios == 0
}

/// Whether nothing of a bearer stands on a tunnel or a radio.
fn links_are_empty(network: &Network, ue: UeId, bearer: BearerId) -> bool
    ensures { (units : Records) (core : OctetCore) → result ≡ links_are_empty (state_of units core network.now) ue bearer }
{
    stands_nowhere(network, ue, bearer, Dir::Dl) && stands_nowhere(network, ue, bearer, Dir::Ul)
}

/// Whether a bearer of this terminal is quiet.
fn is_quiet<U: Units<C> + Drop, C: MessageCodec + Drop>(
    run_state: &RunState<U, C>,
    terminal: &UeNode,
    ue: UeId,
    bearer: BearerId,
) -> bool
    requires { U.ready run_state.now.units }
    ensures { result ≡ is_quiet_with (state_of (U.records run_state.now.units) run_state.now.core run_state.now.network) ue bearer
        (Some terminal.now.node) }
{
    if !is_at_rest(run_state, ue, terminal) {
        return false;
    }
    if !links_are_empty(&run_state.network, ue, bearer) {
        return false;
    }
    terminal.rests(bearer) && run_state.units.cu_users_rest(ue, bearer)
}

/// Whether a bearer is quiet: its terminal is connected, nobody is at work for it, and nothing of the bearer is unconfirmed, waits, or
/// stands on a tunnel or a radio.
#[tactic(auto, unfolding(run_defs::specs::Conditions::rests))]
pub fn rests<U: Units<C> + Drop, C: MessageCodec + Drop>(
    run_state: &RunState<U, C>,
    ue: UeId,
    bearer: BearerId,
) -> bool
    requires { U.ready run_state.now.units }
    ensures { result ≡ rests (state_of (U.records run_state.now.units) run_state.now.core run_state.now.network) ue bearer }
{
    match run_state.units.ue_node(ue) {
        Some(terminal) => is_quiet(run_state, terminal, ue, bearer),
        None => false,
    }
}
