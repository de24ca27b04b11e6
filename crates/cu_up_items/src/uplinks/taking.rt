//! Packets up.

ghost use Rattle.std.specs.Prelude.{◌≡◌, false, OnOk};
ghost use Rattle.pdcp_defs.specs.Counts.{near_count};
ghost use Rattle.pdcp_bearers.specs.ue_bearers.Senders.{IsPacket};
ghost use Rattle.unit_defs.specs.CuUpItems.{took_uplink, passed_up, is_ahead_if};
ghost use Rattle.unit_defs.specs.octet_defs.Codec.{Codec, octet_way};
ghost use Rattle.unit_messages.specs.steps.Steps.{IsStep, step_after};
ghost use Rattle.cu_up_bearer.specs.tunnels.Tunnels.{at_as};
ghost use Rattle.cu_up_bearer.specs.bearers.Bearers.{kept, IsOf};
ghost use Rattle.cu_up_items.specs.uplinks.Storing.{kept_at};

use crate::packets::passing::{drop_item, pass_counted};
use cu_up_bearer::bearers::Bearer;
use cu_up_bearer::bearers::uplink::deliver_stored;
use cu_up_bearer::tunnels::{Scope, ShownCount};
use gnb_types::names::Dir;
use gnb_types::outputs::{Outputs, Tag};
use gnb_types::reasons::DropReason;
use pdcp_bearers::ue_bearers::Reception;
use std::alloc::Global;
use unit_messages::steps::StepError;

/// A released context passes on what was not delivered before.
fn pass_up(
    bearer: &Bearer,
    alloc: Global,
    at: &Scope,
    count: u32,
    packet: &[u8],
    out: &mut Outputs,
) -> Result<(), StepError>
    requires { IsPacket packet.now }
    ensures { (codec : Codec) → IsStep (step_after out.old
        (passed_up (octet_way codec) (at_as at.now) count packet.now (kept bearer.now)))
        out.new (kept bearer.now) result }
{
    if count < bearer.receiving.awaited() {
        return drop_item(out, DropReason::Duplicate);
    }
    let shown = ShownCount {
        count,
        tag: Tag::Same,
    };
    pass_counted(bearer.hop, alloc, at, Dir::Ul, shown, packet, out)
}

/// A packet that was stored: while frozen it goes to the target as well, else what is awaited is delivered.
fn keep(
    bearer: &mut Bearer,
    alloc: Global,
    at: &Scope,
    count: u32,
    packet: &[u8],
    out: &mut Outputs,
) -> Result<(), StepError>
    requires packet { IsPacket packet.now }
    requires of { IsOf at.now bearer.old }
    ensures step { (codec : Codec) → IsStep (step_after out.old
        (kept_at (octet_way codec) (at_as at.now) count packet.now (kept bearer.old)))
        out.new (kept bearer.new) result }
    ensures of { OnOk result (IsOf at.now bearer.new) }
{
    if at.flags.frozen {
        let shown = ShownCount {
            count,
            tag: Tag::Same,
        };
        return pass_counted(bearer.hop, alloc, at, Dir::Ul, shown, packet, out);
    }
    deliver_stored(&mut bearer.receiving, alloc, at, out)
}

/// A packet with its number: it is stored, and delivered in order; while frozen it goes to the target as well, and a released context
/// passes on what was not delivered before.
pub fn take_uplink(
    bearer: &mut Bearer,
    alloc: Global,
    at: &Scope,
    number: u32,
    packet: &[u8],
    out: &mut Outputs,
) -> Result<(), StepError>
    requires packet { IsPacket packet.now }
    requires near { at.now.flags.released ≡ false → is_ahead_if (at_as at.now) (kept bearer.old)
        (near_count at.now.sn bearer.old.receiving.receiver.deliv number) ≡ false }
    requires of { IsOf at.now bearer.old }
    ensures step { (codec : Codec) → IsStep (step_after out.old
        (took_uplink (octet_way codec) (at_as at.now)
        (near_count at.now.sn bearer.old.receiving.receiver.deliv number) packet.now (kept bearer.old)))
        out.new (kept bearer.new) result }
    ensures of { OnOk result (IsOf at.now bearer.new) }
{
    let Some(count) = bearer.receiving.count_of(number) else {
        return drop_item(out, DropReason::Duplicate);
    };
    if at.flags.released {
        return pass_up(bearer, alloc, at, count, packet, out);
    }
    match bearer.receiving.take(number, packet) {
        Reception::Stored => keep(bearer, alloc, at, count, packet, out),
        Reception::Duplicate => drop_item(out, DropReason::Duplicate),
        // Whoever gives the packet saw that it has room.
        Reception::Ahead => unreachable!(),
    }
}
