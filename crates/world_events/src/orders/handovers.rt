//! `handover` and `cancel`: the CU-CPs decide.

ghost use Rattle.std.specs.Prelude.{◌≡◌, OnOk};
ghost use Rattle.run_defs.specs.Conditions.{is_same_place, is_other_up};
ghost use Rattle.run_defs.specs.Events.{handover, cancel};
ghost use Rattle.run_defs.specs.UnitRuns.{unit_world};
ghost use Rattle.run_links.specs.Networks.{state_of};
ghost use Rattle.world_steps.specs.Gives.{EventGives};
ghost use Rattle.world_events.specs.orders.Orders.{handover_order, cancel_order};

use crate::orders::looks::{is_busy_with, is_source};
use crate::orders::ordering::{Ordered, give_order};
use cu_cp_rows::control_rows::is_same_gnb;
use gnb_types::inputs::Order;
use gnb_types::names::{Gnb, NodeId, UeId};
use gnb_types::plans::Plan;
use gnb_types::reasons::RefuseReason;
use run_links::lines::Lines;
use unit_messages::MessageCodec;
use world_steps::Units;
use world_steps::cause::Cause;
use world_steps::run_state::RunState;

/// Whether a terminal that this gNB serves at this place is at that DU already.
fn is_same_place(gnb: Gnb, du: u8, serving: Gnb, place: Option<(u8, u8)>) -> bool
    ensures { result ≡ is_same_place gnb du serving place }
{
    match place {
        Some((_, there)) => is_same_gnb(gnb, serving) && there == du,
        None => false,
    }
}

/// Whether it would change its CU-UP within its gNB.
fn is_other_up(gnb: Gnb, up: u8, serving: Gnb, place: Option<(u8, u8)>) -> bool
    ensures { result ≡ is_other_up gnb up serving place }
{
    match place {
        Some((there, _)) => is_same_gnb(gnb, serving) && there != up,
        None => false,
    }
}

fn handover_order<U: Units<C> + Drop, C: MessageCodec + Drop>(
    run_state: &RunState<U, C>,
    ue: UeId,
    gnb: Gnb,
    up: u8,
    du: u8,
) -> Ordered
    requires { U.ready run_state.now.units }
    ensures { result ≡ handover_order (state_of (U.records run_state.now.units) run_state.now.core run_state.now.network) ue gnb up du }
{
    if !run_state.network.is_attached(ue) {
        return Err(RefuseReason::NoUe);
    }
    let serving = run_state.serving_gnb(ue);
    let place = run_state.serving_place(ue);
    if is_same_place(gnb, du, serving, place) {
        return Err(RefuseReason::Same);
    }
    if is_other_up(gnb, up, serving, place) {
        return Err(RefuseReason::NotAllowed);
    }
    if is_busy_with(run_state, ue) {
        return Err(RefuseReason::Busy);
    }
    match run_state.network.plan(ue) {
        Some(plan) => Ok((
            NodeId::CuCp(serving),
            Order::Handover(Plan {
                gnb,
                up,
                du,
                ..*plan
            }),
        )),
        None => Err(RefuseReason::NoUe),
    }
}

fn cancel_order<U: Units<C> + Drop, C: MessageCodec + Drop>(
    run_state: &RunState<U, C>,
    ue: UeId,
) -> Ordered
    requires { U.ready run_state.now.units }
    ensures { result ≡ cancel_order (state_of (U.records run_state.now.units) run_state.now.core run_state.now.network) ue }
{
    if !run_state.network.is_attached(ue) {
        return Err(RefuseReason::NoUe);
    }
    if is_source(run_state.units.cu_control(Gnb::A).state(ue)) {
        return Ok((NodeId::CuCp(Gnb::A), Order::Cancel(ue)));
    }
    if is_source(run_state.units.cu_control(Gnb::B).state(ue)) {
        return Ok((NodeId::CuCp(Gnb::B), Order::Cancel(ue)));
    }
    Err(RefuseReason::Empty)
}

/// `handover`.
pub fn handover<U: Units<C> + Drop, C: MessageCodec + Drop>(
    run_state: &mut RunState<U, C>,
    ue: UeId,
    gnb: Gnb,
    up: u8,
    du: u8,
    lines: &mut Lines,
) -> Result<(), Cause>
    requires { U.ready run_state.old.units }
    ensures ready { OnOk result (U.ready run_state.new.units) }
    ensures gives { EventGives lines.old
        (handover (unit_world C.codec U.answer) ue gnb up du (state_of (U.records run_state.old.units) run_state.old.core run_state.old.network))
        lines.new (state_of (U.records run_state.new.units) run_state.new.core run_state.new.network) result }
{
    let order = handover_order(run_state, ue, gnb, up, du);
    give_order(run_state, order, lines)
}

/// `cancel`.
pub fn cancel<U: Units<C> + Drop, C: MessageCodec + Drop>(
    run_state: &mut RunState<U, C>,
    ue: UeId,
    lines: &mut Lines,
) -> Result<(), Cause>
    requires { U.ready run_state.old.units }
    ensures ready { OnOk result (U.ready run_state.new.units) }
    ensures gives { EventGives lines.old
        (cancel (unit_world C.codec U.answer) ue (state_of (U.records run_state.old.units) run_state.old.core run_state.old.network))
        lines.new (state_of (U.records run_state.new.units) run_state.new.core run_state.new.network) result }
{
    let order = cancel_order(run_state, ue);
    give_order(run_state, order, lines)
}
