//! End Markers.

ghost use Rattle.std.specs.Prelude.{◌≡◌, Some};
ghost use Rattle.gnb_types.specs.declared.outputs.Tag.TheVariants.{Absent};
ghost use Rattle.unit_defs.specs.CuUpRecords.{CuUpBearer};
ghost use Rattle.unit_defs.specs.CuUpItems.{n3_ended, closed_n3};
ghost use Rattle.unit_defs.specs.Ways.{end_marker};
ghost use Rattle.unit_defs.specs.octet_defs.Codec.{Codec, octet_way};
ghost use Rattle.unit_messages.specs.steps.Steps.{IsStep, step_after};
ghost use Rattle.cu_up_bearer.specs.tunnels.Tunnels.{at_as, hop_as};
ghost use Rattle.cu_up_bearer.specs.bearers.Bearers.{kept};
ghost use Rattle.cu_up_items.specs.packets.Passing.{passed_on};

use crate::packets::passing::drop_item;
use cu_up_bearer::bearers::Bearer;
use cu_up_bearer::tunnels::{Hop, Scope};
use gnb_types::names::Dir;
use gnb_types::outputs::{Output, Outputs};
use gnb_types::reasons::DropReason;
use std::alloc::Global;
use unit_messages::steps::StepError;

/// The End Marker of a direction goes to the target.
pub(crate) fn pass_end(
    hop: Hop,
    alloc: Global,
    at: &Scope,
    dir: Dir,
    out: &mut Outputs,
) -> Result<(), StepError>
    ensures { (codec : Codec) (b : CuUpBearer) → b.hop ≡ hop_as (Some hop) → IsStep (step_after out.old
        (passed_on (octet_way codec) dir (at_as at.now) Absent end_marker b)) out.new b result }
{
    hop.put_end(alloc, at, dir, out)?;
    Ok(())
}

/// N3 is closed, if it is open.
fn close_n3(bearer: &mut Bearer, out: &mut Outputs) -> Result<(), StepError>
    ensures step { (codec : Codec) → IsStep (step_after out.old
        (closed_n3 (octet_way codec) (kept bearer.old) bearer.old.n3)) out.new (kept bearer.new) result }
    ensures down { bearer.new.down ≡ bearer.old.down }
    ensures receiving { bearer.new.receiving ≡ bearer.old.receiving }
{
    let Some(teid) = bearer.n3 else {
        return Ok(());
    };
    out.push(Output::Closed(teid))?;
    bearer.n3 = None;
    Ok(())
}

/// The End Marker of N3 goes on to the target, and closes N3.
pub fn end_n3(
    bearer: &mut Bearer,
    alloc: Global,
    at: &Scope,
    out: &mut Outputs,
) -> Result<(), StepError>
    ensures step { (codec : Codec) → IsStep (step_after out.old
        (n3_ended (octet_way codec) (at_as at.now) (kept bearer.old) (kept bearer.old).hop))
        out.new (kept bearer.new) result }
    ensures down { bearer.new.down ≡ bearer.old.down }
    ensures receiving { bearer.new.receiving ≡ bearer.old.receiving }
{
    let Some(hop) = bearer.hop else {
        return drop_item(out, DropReason::Unexpected);
    };
    pass_end(hop, alloc, at, Dir::Dl, out)?;
    close_n3(bearer, out)
}
