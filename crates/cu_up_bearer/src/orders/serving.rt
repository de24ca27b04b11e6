//! A further uplink; and the downlink begins: on a new tunnel, or where the SN status says.

ghost use Rattle.std.specs.Prelude.{◌≡◌, ◌≤◌, length, OnOk};
ghost use Rattle.pdcp_defs.specs.Receivers.{received_bits};
ghost use Rattle.unit_defs.specs.CuUpRecords.{CuUpBearer};
ghost use Rattle.unit_defs.specs.CuUpBearers.{with_uplink, begin_downlink, switched};
ghost use Rattle.unit_defs.specs.octet_defs.Codec.{Codec, octet_way};
ghost use Rattle.unit_messages.specs.steps.Steps.{IsStep, step_after};
ghost use Rattle.cu_up_bearer.specs.tunnels.Tunnels.{at_as};
ghost use Rattle.cu_up_bearer.specs.downlink.Downlinks.{with_down, IsDown};
ghost use Rattle.cu_up_bearer.specs.bearers.Bearers.{kept, IsOf};
ghost use Rattle.cu_up_bearer.specs.orders.Orders.{IsIdle, thawed_bearer};

use crate::bearers::Bearer;
use crate::bearers::uplink::deliver_stored;
use crate::downlink::DownSide;
use crate::tunnels::{DownlinkTunnel, Frames, Scope};
use gnb_types::bits::Bits;
use gnb_types::items::Items;
use gnb_types::names::NodeId;
use gnb_types::outputs::{Output, Outputs};
use std::alloc::Global;
use unit_messages::steps::StepError;

/// One more uplink tunnel.
#[tactic(auto, unfolding(unit_defs::specs::CuUpBearers::with_uplink))]
pub fn add_uplink(bearer: &mut Bearer, teid: u32, out: &mut Outputs) -> Result<(), StepError>
    ensures step { (codec : Codec) → IsStep (step_after out.old
        (with_uplink (octet_way codec) teid (kept bearer.old))) out.new (kept bearer.new) result }
    ensures down { bearer.new.down ≡ bearer.old.down }
    ensures receiving { bearer.new.receiving ≡ bearer.old.receiving }
{
    bearer.uplinks.push(teid)?;
    out.push(Output::Opened(teid))?;
    Ok(())
}

/// A status report, all that nothing confirmed, and what waits.
#[tactic(auto, unfolding(unit_defs::specs::CuUpBearers::begin_downlink))]
pub(crate) fn begin_downlink(
    down: &mut DownSide,
    alloc: Global,
    at: &Scope,
    fmc: u32,
    bits: &Bits,
    out: &mut Outputs,
) -> Result<(), StepError>
    requires few { length bits.now ≤ 4096 }
    requires of { IsDown at.now down.old }
    ensures step { (codec : Codec) (b : CuUpBearer) → IsStep (step_after out.old
        (begin_downlink (octet_way codec) (at_as at.now) fmc bits.now (with_down b down.old)))
        out.new (with_down b down.new) result }
    ensures of { OnOk result (IsDown at.now down.new) }
{
    down.frames.send_report(alloc, at, fmc, bits, out)?;
    down.send_unconfirmed(alloc, at, out)?;
    down.number_waiting(alloc, at, out)
}

/// The same with the report of what was received.
fn begin_known(
    bearer: &mut Bearer,
    alloc: Global,
    at: &Scope,
    out: &mut Outputs,
) -> Result<(), StepError>
    requires { IsOf at.now bearer.old }
    ensures step { (codec : Codec) → IsStep (step_after out.old
        (begin_downlink (octet_way codec) (at_as at.now) bearer.old.receiving.receiver.deliv
        (received_bits bearer.old.receiving.receiver) (kept bearer.old)))
        out.new (kept bearer.new) result }
    ensures of { OnOk result (IsOf at.now bearer.new) }
{
    let (fmc, bits) = bearer.receiving.report(alloc)?;
    begin_downlink(&mut bearer.down, alloc, at, fmc, &bits, out)
}

/// Nothing is frozen any more.
pub(crate) fn thaw(bearer: &mut Bearer, alloc: Global)
    ensures { bearer.new ≡ thawed_bearer bearer.old }
{
    bearer.hop = None;
    bearer.loss_while_frozen = false;
    bearer.taken_while_frozen = Items::new(alloc);
}

/// The frozen state ends, and the downlink goes to this tunnel from now on.
#[tactic(auto, unfolding(unit_defs::specs::CuUpBearers::switched))]
pub fn switch(
    bearer: &mut Bearer,
    alloc: Global,
    at: &Scope,
    du: NodeId,
    teid: u32,
    out: &mut Outputs,
) -> Result<(), StepError>
    requires of { IsOf at.now bearer.old }
    requires idle { IsIdle at.now bearer.old }
    ensures step { (codec : Codec) → IsStep (step_after out.old
        (switched (octet_way codec) (at_as at.now) du teid (kept bearer.old)))
        out.new (kept bearer.new) result }
    ensures of { OnOk result (IsOf at.now bearer.new) }
    ensures idle { OnOk result (IsIdle at.now bearer.new) }
{
    thaw(bearer, alloc);
    bearer.down.frames = Frames {
        downlink: Some(DownlinkTunnel { du, teid, next: 0 }),
        restart: false,
    };
    if !at.flags.may_serve {
        // Before the SN status nothing is stored, and nothing was sent.
        return Ok(());
    }
    deliver_stored(&mut bearer.receiving, alloc, at, out)?;
    begin_known(bearer, alloc, at, out)
}
