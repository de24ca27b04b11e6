//! Which event is done by what.

ghost use Rattle.std.specs.Prelude.{◌≡◌, OnOk};
ghost use Rattle.scenario_text.specs.Texts.{InRange};
ghost use Rattle.run_defs.specs.Runs.{happens};
ghost use Rattle.run_defs.specs.UnitRuns.{unit_world};
ghost use Rattle.run_links.specs.Networks.{state_of};
ghost use Rattle.world_steps.specs.Gives.{EventGives};

use crate::settling::settle::settle;
use gnb_types::keys::{EntityKey, TunnelEnd};
use gnb_types::names::{BearerId, Dir, NodeId, UeId};
use run_links::lines::Lines;
use scenario_text::event::Event;
use unit_messages::lawful_codecs::LawfulCodec;
use world_events::attaches::attaches::attach;
use world_events::attaches::setups::set_up;
use world_events::bearers::asks::ask;
use world_events::bearers::offers::offer;
use world_events::bearers::polls::poll;
use world_events::injects::injects::{inject_item, inject_message};
use world_events::orders::handovers::{cancel, handover};
use world_events::orders::releases::release;
use world_events::orders::terminals::{arrive, come_back, fail};
use world_steps::Units;
use world_steps::cause::Cause;
use world_steps::control_messages::gives::give;
use world_steps::control_messages::losses::{lose_item, lose_message};
use world_steps::control_messages::pumps::pump;
use world_steps::control_messages::turns::{start, tick};
use world_steps::packets::gets::get;
use world_steps::packets::radio::{ack, air};
use world_steps::run_state::RunState;

/// The end of a tunnel.
fn end_of(node: NodeId, teid: u32) -> TunnelEnd
    ensures { result ≡ record { node = node; teid = teid } }
{
    TunnelEnd { node, teid }
}

/// One direction of a bearer.
fn entity(ue: UeId, bearer: BearerId, dir: Dir) -> EntityKey
    ensures { result ≡ record { ue = ue; bearer = bearer; dir = dir } }
{
    EntityKey { ue, bearer, dir }
}

/// Applies an event to a run that goes on.
#[tactic(auto, unfolding(run_defs::specs::Runs::happens))]
pub(crate) fn happen<U: Units<C> + Drop, C: LawfulCodec + Drop>(
    run_state: &mut RunState<U, C>,
    event: &Event,
    lines: &mut Lines,
) -> Result<(), Cause>
    requires ready { U.ready run_state.old.units }
    requires range { InRange event.now }
    ensures ready { OnOk result (U.ready run_state.new.units) }
    ensures gives { EventGives lines.old
        (happens (unit_world C.codec U.answer) event.now (state_of (U.records run_state.old.units) run_state.old.core run_state.old.network))
        lines.new (state_of (U.records run_state.new.units) run_state.new.core run_state.new.network) result }
{
    match event {
        Event::Static { plan } => set_up(run_state, *plan, lines),
        Event::Start => start(run_state, lines),
        Event::Attach { plan } => attach(run_state, *plan, lines),
        Event::Offer {
            ue,
            bearer,
            dir,
            packet,
        } => offer(run_state, *ue, *bearer, *dir, packet, lines),
        Event::Get { end, teid } => get(run_state, end_of(*end, *teid), lines),
        Event::Air { ue, bearer, dir } => air(run_state, entity(*ue, *bearer, *dir), lines),
        Event::Ack { ue, bearer, dir } => ack(run_state, entity(*ue, *bearer, *dir), lines),
        Event::Give { message } => give(run_state, *message, lines),
        Event::LoseMessage { message } => lose_message(run_state, *message, lines),
        Event::LoseItem { end, teid } => lose_item(run_state, end_of(*end, *teid), lines),
        Event::Poll { ue, bearer } => poll(run_state, *ue, *bearer, lines),
        Event::Pump => pump(run_state, lines),
        Event::Tick => tick(run_state, lines),
        Event::Fail { ue } => fail(run_state, *ue, lines),
        Event::Arrive { ue } => arrive(run_state, *ue, lines),
        Event::Return { ue } => come_back(run_state, *ue, lines),
        Event::Handover { ue, gnb, up, du } => handover(run_state, *ue, *gnb, *up, *du, lines),
        Event::Cancel { ue } => cancel(run_state, *ue, lines),
        Event::Release { ue } => release(run_state, *ue, lines),
        Event::Ask { ue, bearer } => ask(run_state, *ue, *bearer, lines),
        Event::Settle => settle(run_state, lines),
        Event::InjectMessage { from, to, bytes } => inject_message(
            run_state, *from, *to, bytes, lines,
        ),
        Event::InjectItem { end, teid, bytes } => {
            inject_item(run_state, end_of(*end, *teid), bytes, lines)
        }
    }
}
