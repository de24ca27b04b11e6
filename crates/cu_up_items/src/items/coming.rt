//! An item comes to a bearer.

ghost use Rattle.unit_defs.specs.codec_defs.Reading.{ReadsItems};
ghost use Rattle.unit_defs.specs.octet_defs.Codec.{Codec};
ghost use Rattle.cu_up_bearer.specs.bearers.Bearers.{kept, IsOf};
ghost use Rattle.cu_up_items.specs.items.Items.{item_as, IsSizedItem};
ghost use Rattle.cu_up_items.specs.items.Coming.{came, came_as, IsReceived};
ghost use Rattle.std.specs.Prelude.{◌≡◌, false, OnOk};

use crate::items::holding::held_reason;
use crate::items::items::{CuUpItem, Kind, read_item};
use crate::items::taking::take;
use cu_up_bearer::bearers::Bearer;
use cu_up_bearer::tunnels::Scope;
use gnb_types::outputs::{Output, Outputs};
use gnb_types::reasons::DropReason;
use std::alloc::Global;
use unit_messages::steps::StepError;

/// An item comes: it is held, or taken. Says whether it was taken. Before the SN status each is held.
fn come_as(
    bearer: &mut Bearer,
    alloc: Global,
    at: &Scope,
    kind: Kind,
    teid: u32,
    item: &CuUpItem<'_>,
    out: &mut Outputs,
) -> Result<bool, StepError>
    requires sized { IsSizedItem (item_as item.now) }
    requires of { IsOf at.now bearer.old }
    ensures came { (codec : Codec) → IsReceived (came_as codec at.now kind teid item.now (kept bearer.old))
        out.old out.new (kept bearer.old) (kept bearer.new) result }
    ensures of { OnOk result (IsOf at.now bearer.new) }
    ensures idle { at.now.flags.may_serve ≡ false → bearer.new ≡ bearer.old }
{
    if let Some(reason) = held_reason(bearer, at, kind, item) {
        out.push(Output::Held(reason))?;
        return Ok(false);
    }
    take(bearer, alloc, at, kind, teid, item, out)?;
    Ok(true)
}

/// Octets of a tunnel come: they are dropped if they say nothing there, the item is held, or it is taken. Says whether it was taken.
pub fn come(
    bearer: &mut Bearer,
    alloc: Global,
    at: &Scope,
    kind: Kind,
    teid: u32,
    octets: &[u8],
    out: &mut Outputs,
) -> Result<bool, StepError>
    requires { IsOf at.now bearer.old }
    ensures came { (codec : Codec) → ReadsItems codec → IsReceived (came codec at.now kind teid octets.now (kept bearer.old))
        out.old out.new (kept bearer.old) (kept bearer.new) result }
    ensures of { OnOk result (IsOf at.now bearer.new) }
    ensures idle { at.now.flags.may_serve ≡ false → bearer.new ≡ bearer.old }
{
    let Some(item) = read_item(kind, at.sn, octets) else {
        out.push(Output::Drop(DropReason::Undecodable))?;
        return Ok(false);
    };
    come_as(bearer, alloc, at, kind, teid, &item, out)
}
