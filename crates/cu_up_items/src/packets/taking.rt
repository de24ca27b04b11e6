//! Packets down: items of N3 and of the hop's downlink tunnel.

ghost use Rattle.std.specs.Prelude.{◌≡◌, ◌<◌, false, OnOk};
ghost use Rattle.pdcp_bearers.specs.ue_bearers.Senders.{used, IsPacket};
ghost use Rattle.unit_defs.specs.CuUpItems.{took_fresh, took_numbered, down_ended};
ghost use Rattle.unit_defs.specs.octet_defs.Codec.{Codec, octet_way};
ghost use Rattle.unit_messages.specs.steps.Steps.{IsStep, step_after};
ghost use Rattle.cu_up_bearer.specs.tunnels.Tunnels.{at_as};
ghost use Rattle.cu_up_bearer.specs.bearers.Bearers.{kept, IsOf};

use crate::packets::passing::{drop_item, pass_counted, pass_fresh};
use cu_up_bearer::bearers::Bearer;
use cu_up_bearer::tunnels::{Scope, ShownCount};
use gnb_types::names::Dir;
use gnb_types::octets::Octets;
use gnb_types::outputs::{Outputs, Tag};
use gnb_types::reasons::DropReason;
use std::alloc::Global;
use unit_messages::steps::StepError;

/// A packet without a number: it waits, and is numbered; while frozen it goes to the target as well, and a released context passes it
/// on.
pub fn take_fresh(
    bearer: &mut Bearer,
    alloc: Global,
    at: &Scope,
    packet: Octets,
    out: &mut Outputs,
) -> Result<(), StepError>
    requires packet { IsPacket packet }
    requires room { at.now.flags.released ≡ false
        → used bearer.old.down.sending < bearer.old.down.sending.quota }
    requires of { IsOf at.now bearer.old }
    ensures step { (codec : Codec) → IsStep (step_after out.old
        (took_fresh (octet_way codec) (at_as at.now) packet (kept bearer.old)))
        out.new (kept bearer.new) result }
    ensures of { OnOk result (IsOf at.now bearer.new) }
{
    if at.flags.released {
        return pass_fresh(bearer.hop, alloc, at, packet.as_slice(), out);
    }
    if at.flags.frozen {
        pass_fresh(bearer.hop, alloc, at, packet.as_slice(), out)?;
        bearer.down.sending.offer(packet)?;
        return Ok(());
    }
    bearer.down.sending.offer(packet)?;
    bearer.down.number_waiting(alloc, at, out)
}

/// A packet with its number, of which this COUNT was found: it is held as unconfirmed, and sent; while frozen it goes to the target
/// instead, and a released context passes it on.
pub fn take_numbered(
    bearer: &mut Bearer,
    alloc: Global,
    at: &Scope,
    count: Option<u32>,
    packet: &[u8],
    out: &mut Outputs,
) -> Result<(), StepError>
    requires packet { IsPacket packet.now }
    requires room { at.now.flags.released ≡ false
        → used bearer.old.down.sending < bearer.old.down.sending.quota }
    requires of { IsOf at.now bearer.old }
    ensures step { (codec : Codec) → IsStep (step_after out.old
        (took_numbered (octet_way codec) (at_as at.now) count packet.now (kept bearer.old)))
        out.new (kept bearer.new) result }
    ensures of { OnOk result (IsOf at.now bearer.new) }
{
    let Some(count) = count else {
        return drop_item(out, DropReason::Duplicate);
    };
    let shown = ShownCount {
        count,
        tag: Tag::Same,
    };
    if at.flags.released {
        return pass_counted(bearer.hop, alloc, at, Dir::Dl, shown, packet, out);
    }
    if !bearer.down.sending.restore(count, packet) {
        return drop_item(out, DropReason::Duplicate);
    }
    if !at.flags.frozen {
        return bearer
            .down
            .frames
            .send(alloc, at, count, packet, Tag::Same, out);
    }
    bearer.taken_while_frozen.push(count)?;
    pass_counted(bearer.hop, alloc, at, Dir::Dl, shown, packet, out)
}

/// The End Marker of the hop from the source.
pub fn end_down(bearer: &mut Bearer, out: &mut Outputs) -> Result<(), StepError>
    ensures step { (codec : Codec) → IsStep (step_after out.old
        (down_ended (octet_way codec) (kept bearer.old))) out.new (kept bearer.new) result }
    ensures entities { bearer.new.down ≡ bearer.old.down }
    ensures receiving { bearer.new.receiving ≡ bearer.old.receiving }
{
    if bearer.down_ended {
        return drop_item(out, DropReason::Unexpected);
    }
    bearer.down_ended = true;
    Ok(())
}
