//! What a frozen bearer holds of its downlink goes to its target.

ghost use Rattle.std.specs.Prelude.{◌≡◌, Some, OnOk};
ghost use Rattle.unit_defs.specs.CuUpRecords.{CuUpBearer};
ghost use Rattle.unit_defs.specs.CuUpBearers.{forward_numbered, forward_fresh};
ghost use Rattle.unit_defs.specs.octet_defs.Codec.{Codec, octet_way};
ghost use Rattle.unit_messages.specs.steps.Steps.{stepped, step_after};
ghost use Rattle.cu_up_bearer.specs.tunnels.Tunnels.{at_as, hop_as};

use crate::tunnels::{Hop, Scope, ShownCount};
use gnb_types::items::Memory;
use gnb_types::names::Dir;
use gnb_types::outputs::{Outputs, Tag};
use pdcp_bearers::ue_bearers::Sender as Sending;
use std::alloc::Global;

/// Downlink packets that nothing confirmed, each with its COUNT.
pub fn forward_unconfirmed(
    hop: Hop,
    sending: &Sending,
    alloc: Global,
    at: &Scope,
    out: &mut Outputs,
) -> Result<(), Memory>
    ensures { (codec : Codec) (b : CuUpBearer) → b.hop ≡ hop_as (Some hop) → OnOk result (step_after out.old
        (forward_numbered (octet_way codec) (at_as at.now) sending.now.sender.unconfirmed b) ≡ stepped out.new b) }
{
    let mut from = 0;
    while let Some((count, packet)) = sending.unconfirmed(from) {
        let shown = ShownCount {
            count,
            tag: Tag::Own(count),
        };
        hop.put_counted(alloc, at, Dir::Dl, shown, packet, out)?;
        from = count + 1;
    }
    Ok(())
}

/// Downlink packets that wait for a COUNT, without one.
pub fn forward_waiting(
    hop: Hop,
    sending: &Sending,
    alloc: Global,
    at: &Scope,
    out: &mut Outputs,
) -> Result<(), Memory>
    ensures { (codec : Codec) (b : CuUpBearer) → b.hop ≡ hop_as (Some hop) → OnOk result (step_after out.old
        (forward_fresh (octet_way codec) (at_as at.now) sending.now.waiting b) ≡ stepped out.new b) }
{
    for packet in sending.waiting() {
        hop.put_fresh(alloc, at, packet.as_slice(), out)?;
    }
    Ok(())
}
