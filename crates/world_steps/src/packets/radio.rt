//! `air` and `ack`: the oldest item of a radio that isn't carried is carried, and the oldest carried one is confirmed.

ghost use Rattle.std.specs.Prelude.{◌≡◌, ◌==◌, ◌∷◌, List, ℕ, Some, IfOk, OnOk, false};
ghost use Rattle.gnb_types.specs.Orders.{entity_cmp};
ghost use Rattle.tables.specs.Tables.{at};
ghost use Rattle.gnb_types.specs.declared.inputs.Input.TheVariants as ins;
ghost use Rattle.transport_defs.specs.declared.Item.{Item as ItemOf};
ghost use Rattle.transport_defs.specs.Links.{silent};
ghost use Rattle.links.specs.Radios.{uncarried};
ghost use Rattle.run_defs.specs.Conditions.{receiver_of, sender_of};
ghost use Rattle.run_defs.specs.Events.{air, ack, carry_done, confirm_done};
ghost use Rattle.run_defs.specs.UnitRuns.{unit_world};
ghost use Rattle.run_links.specs.Networks.{state_of};
ghost use Rattle.world_steps.specs.Gives.{EventGives};
ghost use Rattle.world_steps.specs.Moves.{StepOutcome};
ghost use Rattle.world_steps.specs.packets.Homes.{home_at};

use crate::Units;
use crate::asked::{Asked, Moved, moved_by};
use crate::cause::Cause;
use crate::run_state::RunState;
use gnb_types::inputs::Input;
use gnb_types::items::Memory;
use gnb_types::keys::EntityKey;
use gnb_types::names::{Dir, NodeId};
use gnb_types::reasons::RefuseReason;
use links::items::Item;
use run_links::lines::{Lines, radio_link};
use scenario_text::line::OutLine;
use unit_messages::MessageCodec;

/// Who receives on a radio, where the terminal's home is this DU.
pub fn receiver_of(key: EntityKey, home: NodeId) -> NodeId
    ensures { result ≡ receiver_of key home }
{
    match key.dir {
        Dir::Dl => NodeId::Ue(key.ue.0),
        Dir::Ul => home,
    }
}

/// Who sends there.
pub fn sender_of(key: EntityKey, home: NodeId) -> NodeId
    ensures { result ≡ sender_of key home }
{
    match key.dir {
        Dir::Dl => home,
        Dir::Ul => NodeId::Ue(key.ue.0),
    }
}

/// An item that a radio carried, as its receiver takes it.
fn radio_input(item: &Item) -> Result<Input, Memory>
    ensures { IfOk result (λ input. input
        ≡ ins.Radio item.now.key.ue item.now.key.bearer item.now.key.dir item.now.content) }
{
    let bytes = item.content.clone()?;
    let EntityKey { ue, bearer, dir } = item.key;
    Ok(Input::Radio {
        ue,
        bearer,
        dir,
        bytes,
    })
}

/// An item that is confirmed, as its sender takes it.
fn confirm_input(item: &Item) -> Result<Input, Memory>
    ensures { IfOk result (λ input. input
        ≡ ins.Confirm item.now.key.ue item.now.key.bearer item.now.key.dir item.now.content) }
{
    let bytes = item.content.clone()?;
    let EntityKey { ue, bearer, dir } = item.key;
    Ok(Input::Confirm {
        ue,
        bearer,
        dir,
        bytes,
    })
}

/// The oldest item of a radio that isn't carried is carried to its receiver, where there is one. What wasn't made isn't printed.
pub fn air_item<U: Units<C> + Drop, C: MessageCodec + Drop>(
    run_state: &mut RunState<U, C>,
    key: EntityKey,
    home: NodeId,
    lines: &mut Lines,
) -> Result<Moved, Cause>
    requires { U.ready run_state.old.units }
    ensures ready { OnOk result (U.ready run_state.new.units) }
    ensures gives { (item : ItemOf (List ℕ)) → uncarried (at entity_cmp silent run_state.old.network.radios.radios key) ≡ Some item → StepOutcome
        (carry_done (unit_world C.codec U.answer) key home item (state_of (U.records run_state.old.units) run_state.old.core run_state.old.network))
        (record { state = state_of (U.records run_state.old.units) run_state.old.core run_state.old.network; lines = lines.old })
        (record { state = state_of (U.records run_state.new.units) run_state.new.core run_state.new.network; lines = lines.new }) result }
{
    let receiver = receiver_of(key, home);
    let (input, count) = match run_state.network.uncarried(key) {
        Some(item) => (radio_input(item)?, item.count),
        None => return Ok(Moved::Refuses(RefuseReason::Empty)),
    };
    let asked = match run_state.ask(receiver, input) {
        Ok(asked) => asked,
        Err(cause) => return Err(cause),
    };
    match asked {
        Asked::Does(outputs) => {
            run_state.network.carry_off(key, lines)?;
            moved_by(run_state.finish(receiver, count, outputs, lines))
        }
        Asked::Holds(reason) => Ok(Moved::Holds(reason)),
        Asked::Refuses(reason) => Ok(Moved::Refuses(reason)),
    }
}

/// The oldest carried item of a radio is confirmed to its sender, where there is one. What wasn't made isn't printed.
pub fn ack_item<U: Units<C> + Drop, C: MessageCodec + Drop>(
    run_state: &mut RunState<U, C>,
    key: EntityKey,
    home: NodeId,
    lines: &mut Lines,
) -> Result<Moved, Cause>
    requires { U.ready run_state.old.units }
    ensures ready { OnOk result (U.ready run_state.new.units) }
    ensures gives { (item : ItemOf (List ℕ)) (rest : List (ItemOf (List ℕ)))
        → (at entity_cmp silent run_state.old.network.radios.radios key).items ≡ item ∷ rest
        → ((at entity_cmp silent run_state.old.network.radios.radios key).carried == 0) ≡ false → StepOutcome
        (confirm_done (unit_world C.codec U.answer) key home item rest (state_of (U.records run_state.old.units) run_state.old.core run_state.old.network))
        (record { state = state_of (U.records run_state.old.units) run_state.old.core run_state.old.network; lines = lines.old })
        (record { state = state_of (U.records run_state.new.units) run_state.new.core run_state.new.network; lines = lines.new }) result }
{
    let sender = sender_of(key, home);
    let (input, count) = match run_state.network.carried(key) {
        Some(item) => (confirm_input(item)?, item.count),
        None => return Ok(Moved::Refuses(RefuseReason::Empty)),
    };
    let asked = match run_state.ask(sender, input) {
        Ok(asked) => asked,
        Err(cause) => return Err(cause),
    };
    match asked {
        Asked::Does(outputs) => {
            run_state.network.confirm_off(key);
            moved_by(run_state.finish(sender, count, outputs, lines))
        }
        Asked::Holds(reason) => Ok(Moved::Holds(reason)),
        Asked::Refuses(reason) => Ok(Moved::Refuses(reason)),
    }
}

/// `air`.
pub fn air<U: Units<C> + Drop, C: MessageCodec + Drop>(
    run_state: &mut RunState<U, C>,
    key: EntityKey,
    lines: &mut Lines,
) -> Result<(), Cause>
    requires { U.ready run_state.old.units }
    ensures ready { OnOk result (U.ready run_state.new.units) }
    ensures gives { EventGives lines.old
        (air (unit_world C.codec U.answer) key (state_of (U.records run_state.old.units) run_state.old.core run_state.old.network))
        lines.new (state_of (U.records run_state.new.units) run_state.new.core run_state.new.network) result }
{
    let home = match radio_home(run_state, key) {
        Ok(home) => home,
        Err(reason) => {
            lines.push(OutLine::Refused { reason })?;
            return Ok(());
        }
    };
    if let None = run_state.network.uncarried(key) {
        lines.push(OutLine::Refused {
            reason: RefuseReason::Empty,
        })?;
        return Ok(());
    }
    let link = radio_link(key, run_state.network.shown_epoch(key.ue));
    let moved = match air_item(run_state, key, home, lines) {
        Ok(moved) => moved,
        Err(cause) => return Err(cause),
    };
    moved.show_held(link, lines)?;
    Ok(())
}

/// The home of the terminal of a radio, or why nothing can be carried there.
fn radio_home<U: Units<C> + Drop, C: MessageCodec + Drop>(
    run_state: &RunState<U, C>,
    key: EntityKey,
) -> Result<NodeId, RefuseReason>
    requires { U.ready run_state.now.units }
    ensures { result ≡ home_at (state_of (U.records run_state.now.units) run_state.now.core run_state.now.network) key }
{
    if !run_state.network.has_bearer(key.ue, key.bearer) {
        return Err(RefuseReason::NoBearer);
    }
    match run_state.ready_home(key.ue) {
        Some(home) => Ok(home),
        None => Err(RefuseReason::NoRadio),
    }
}

/// `ack`.
pub fn ack<U: Units<C> + Drop, C: MessageCodec + Drop>(
    run_state: &mut RunState<U, C>,
    key: EntityKey,
    lines: &mut Lines,
) -> Result<(), Cause>
    requires { U.ready run_state.old.units }
    ensures ready { OnOk result (U.ready run_state.new.units) }
    ensures gives { EventGives lines.old
        (ack (unit_world C.codec U.answer) key (state_of (U.records run_state.old.units) run_state.old.core run_state.old.network))
        lines.new (state_of (U.records run_state.new.units) run_state.new.core run_state.new.network) result }
{
    let home = match radio_home(run_state, key) {
        Ok(home) => home,
        Err(reason) => {
            lines.push(OutLine::Refused { reason })?;
            return Ok(());
        }
    };
    if let None = run_state.network.carried(key) {
        lines.push(OutLine::Refused {
            reason: RefuseReason::Empty,
        })?;
        return Ok(());
    }
    let moved = match ack_item(run_state, key, home, lines) {
        Ok(moved) => moved,
        Err(cause) => return Err(cause),
    };
    moved.show_refused(lines)?;
    Ok(())
}
