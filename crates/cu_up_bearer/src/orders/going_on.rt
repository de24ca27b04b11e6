//! The SN status, with which a target goes on where the source stood; and resume, by which a frozen bearer goes on itself.

ghost use Rattle.std.specs.Prelude.{◌≡◌, ◌≤◌, length, OnOk};
ghost use Rattle.unit_defs.specs.CuUpRecords.{CuUpBearer};
ghost use Rattle.unit_defs.specs.CuUpBearers.{bits_in, begin_downlink, begin_where_arrived, with_status, resumed, sent_again};
ghost use Rattle.unit_defs.specs.octet_defs.Codec.{Codec, octet_way};
ghost use Rattle.unit_messages.specs.steps.Steps.{IsStep, step_after};
ghost use Rattle.cu_up_bearer.specs.tunnels.Tunnels.{at_as};
ghost use Rattle.cu_up_bearer.specs.downlink.Downlinks.{with_down, IsDown};
ghost use Rattle.cu_up_bearer.specs.bearers.Bearers.{kept, IsOf};
ghost use Rattle.cu_up_bearer.specs.orders.Orders.{IsEmpty, status_bearer, owed_of, marked};

use crate::bearers::Bearer;
use crate::bearers::uplink::deliver_stored;
use crate::downlink::DownSide;
use crate::orders::serving::{begin_downlink, thaw};
use crate::tunnels::Scope;
use gnb_types::bits::Bits;
use gnb_types::items::Memory;
use gnb_types::outputs::Outputs;
use gnb_types::plans::SnStatus;
use std::alloc::Global;
use unit_messages::steps::StepError;

/// The entities go on where those of the source stand.
fn go_on_at(bearer: &mut Bearer, alloc: Global, status: &SnStatus) -> Result<(), Memory>
    requires { IsEmpty bearer.old }
    ensures { OnOk result (bearer.new ≡ status_bearer status.now bearer.old) }
{
    bearer.dl_next = status.dl_next;
    bearer.down.sending.go_on_at(alloc, status.dl_next)?;
    bearer.receiving.go_on_at(alloc, status.ul_first)
}

/// The downlink begins with these bits in its report, or with none.
fn begin_with(
    down: &mut DownSide,
    alloc: Global,
    at: &Scope,
    status: &SnStatus,
    out: &mut Outputs,
) -> Result<(), StepError>
    requires few { length (bits_in status.now.ul_received) ≤ 4096 }
    requires of { IsDown at.now down.old }
    ensures step { (codec : Codec) (b : CuUpBearer) → IsStep (step_after out.old
        (begin_downlink (octet_way codec) (at_as at.now) status.now.ul_first (bits_in status.now.ul_received) (with_down b down.old)))
        out.new (with_down b down.new) result }
    ensures of { OnOk result (IsDown at.now down.new) }
{
    match &status.ul_received {
        Some(bits) => begin_downlink(down, alloc, at, status.ul_first, bits, out),
        None => begin_downlink(down, alloc, at, status.ul_first, &Bits::new(alloc), out),
    }
}

/// A target whose terminal arrived begins.
fn begin_where_arrived(
    bearer: &mut Bearer,
    alloc: Global,
    at: &Scope,
    status: &SnStatus,
    out: &mut Outputs,
) -> Result<(), StepError>
    requires few { length (bits_in status.now.ul_received) ≤ 4096 }
    requires of { IsOf at.now bearer.old }
    ensures step { (codec : Codec) → IsStep (step_after out.old
        (begin_where_arrived (octet_way codec) (at_as at.now) status.now (kept bearer.old)))
        out.new (kept bearer.new) result }
    ensures of { OnOk result (IsOf at.now bearer.new) }
{
    if !at.flags.arrived {
        return Ok(());
    }
    deliver_stored(&mut bearer.receiving, alloc, at, out)?;
    begin_with(&mut bearer.down, alloc, at, status, out)
}

/// The entities go on where those of the source stand, and begin if the terminal arrived.
#[tactic(auto, unfolding(unit_defs::specs::CuUpBearers::with_status))]
pub fn take_status(
    bearer: &mut Bearer,
    alloc: Global,
    at: &Scope,
    status: &SnStatus,
    out: &mut Outputs,
) -> Result<(), StepError>
    requires few { length (bits_in status.now.ul_received) ≤ 4096 }
    requires empty { IsEmpty bearer.old }
    requires of { IsOf at.now bearer.old }
    ensures step { (codec : Codec) → IsStep (step_after out.old
        (with_status (octet_way codec) (at_as at.now) status.now (kept bearer.old)))
        out.new (kept bearer.new) result }
    ensures of { OnOk result (IsOf at.now bearer.new) }
{
    go_on_at(bearer, alloc, status)?;
    begin_where_arrived(bearer, alloc, at, status, out)
}

/// What is owed to the terminal is sent: all that nothing confirmed where a loss was reported meanwhile, the first with the restart
/// mark, else what came meanwhile.
fn send_owed(
    down: &mut DownSide,
    alloc: Global,
    at: &Scope,
    loss: bool,
    came: &[u32],
    out: &mut Outputs,
) -> Result<(), StepError>
    ensures step { (codec : Codec) (b : CuUpBearer) → IsStep (step_after out.old
        (sent_again (octet_way codec) (at_as at.now) (owed_of loss came.now down.old.sending.sender.unconfirmed)
        (with_down b (marked loss down.old)))) out.new (with_down b down.new) result }
    ensures sending { down.new.sending ≡ down.old.sending }
{
    if loss {
        down.frames.restart = true;
        return down.send_unconfirmed(alloc, at, out);
    }
    down.send_these(alloc, at, came, out)
}

/// A frozen bearer goes on.
#[tactic(auto, unfolding(unit_defs::specs::CuUpBearers::resumed))]
pub fn resume(
    bearer: &mut Bearer,
    alloc: Global,
    at: &Scope,
    out: &mut Outputs,
) -> Result<(), StepError>
    requires { IsOf at.now bearer.old }
    ensures step { (codec : Codec) → IsStep (step_after out.old
        (resumed (octet_way codec) (at_as at.now) (kept bearer.old)))
        out.new (kept bearer.new) result }
    ensures of { OnOk result (IsOf at.now bearer.new) }
{
    let came = bearer.taken_while_frozen.as_slice();
    send_owed(
        &mut bearer.down,
        alloc,
        at,
        bearer.loss_while_frozen,
        came,
        out,
    )?;
    thaw(bearer, alloc);
    deliver_stored(&mut bearer.receiving, alloc, at, out)?;
    bearer.down.number_waiting(alloc, at, out)
}
