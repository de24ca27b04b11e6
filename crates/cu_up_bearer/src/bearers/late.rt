//! What a frozen bearer stores of its uplink goes to its target.

ghost use Rattle.std.specs.Prelude.{◌≡◌, Some, OnOk};
ghost use Rattle.unit_defs.specs.CuUpRecords.{CuUpBearer};
ghost use Rattle.unit_defs.specs.CuUpBearers.{forward_late};
ghost use Rattle.unit_defs.specs.octet_defs.Codec.{Codec, octet_way};
ghost use Rattle.unit_messages.specs.steps.Steps.{stepped, step_after};
ghost use Rattle.cu_up_bearer.specs.tunnels.Tunnels.{at_as, hop_as};
ghost use Rattle.cu_up_bearer.specs.bearers.Bearers.{IsUp};

use crate::tunnels::{Hop, Scope, ShownCount};
use gnb_types::items::Memory;
use gnb_types::names::Dir;
use gnb_types::outputs::{Outputs, Tag};
use pdcp_bearers::ue_bearers::Receiver as Receiving;
use std::alloc::Global;

/// Uplink packets that are stored, each with its COUNT.
pub fn forward_stored(
    hop: Hop,
    receiving: &Receiving,
    alloc: Global,
    at: &Scope,
    out: &mut Outputs,
) -> Result<(), Memory>
    requires { IsUp at.now receiving.now }
    ensures { (codec : Codec) (b : CuUpBearer) → b.hop ≡ hop_as (Some hop) → OnOk result (step_after out.old
        (forward_late (octet_way codec) (at_as at.now) receiving.now.receiver.stored b) ≡ stepped out.new b) }
{
    let mut from = 0;
    while let Some((count, packet)) = receiving.stored(from) {
        let shown = ShownCount {
            count,
            tag: Tag::Own(count),
        };
        hop.put_counted(alloc, at, Dir::Ul, shown, packet, out)?;
        from = count + 1;
    }
    Ok(())
}
