//! What confirms packets down: status reports of the terminal, and delivery statuses of the DU (TS 38.323, 5.4.2; TS 38.425, 5.4).

ghost use Rattle.std.specs.Prelude.{◌≡◌, OnOk};
ghost use Rattle.gnb_types.specs.declared.names.SnBits.{SnBits};
ghost use Rattle.unit_defs.specs.CuUpRecords.{CuUpBearer};
ghost use Rattle.unit_defs.specs.CuUpItems.{took_report, took_delivery_status, lost_frames, confirmed_if};
ghost use Rattle.unit_defs.specs.octet_defs.Codec.{Codec, octet_way};
ghost use Rattle.unit_defs.specs.octet_defs.Reading.{bits_of, count_confirmed};
ghost use Rattle.unit_messages.specs.steps.Steps.{IsStep, step_after};
ghost use Rattle.cu_up_bearer.specs.tunnels.Tunnels.{at_as};
ghost use Rattle.cu_up_bearer.specs.downlink.Downlinks.{with_down};
ghost use Rattle.cu_up_bearer.specs.bearers.Bearers.{kept, IsOf};

use cu_up_bearer::bearers::Bearer;
use cu_up_bearer::downlink::DownSide;
use cu_up_bearer::tunnels::Scope;
use gnb_types::outputs::Outputs;
use std::alloc::Global;
use unit_messages::steps::StepError;

/// A status report confirms, and makes room for what waits.
pub fn take_report(
    bearer: &mut Bearer,
    alloc: Global,
    at: &Scope,
    fmc: u32,
    bitmap: &[u8],
    out: &mut Outputs,
) -> Result<(), StepError>
    requires { IsOf at.now bearer.old }
    ensures step { (codec : Codec) → IsStep (step_after out.old
        (took_report (octet_way codec) (at_as at.now) fmc (bits_of bitmap.now) (kept bearer.old)))
        out.new (kept bearer.new) result }
    ensures of { OnOk result (IsOf at.now bearer.new) }
{
    bearer.down.sending.confirm_report(fmc, bitmap);
    bearer.down.number_waiting(alloc, at, out)
}

/// Frames were lost: all that nothing confirmed is sent again, the first with the restart mark; a frozen bearer does so when it goes on.
fn lose_frames(
    bearer: &mut Bearer,
    alloc: Global,
    at: &Scope,
    lost: &[(u32, u32)],
    out: &mut Outputs,
) -> Result<(), StepError>
    requires { IsOf at.now bearer.old }
    ensures step { (codec : Codec) → IsStep (step_after out.old
        (lost_frames (octet_way codec) (at_as at.now) lost.now (kept bearer.old)))
        out.new (kept bearer.new) result }
    ensures of { OnOk result (IsOf at.now bearer.new) }
{
    if lost.is_empty() {
        return Ok(());
    }
    bearer.down.frames.restart = true;
    if at.flags.frozen {
        bearer.loss_while_frozen = true;
        return Ok(());
    }
    bearer.down.send_unconfirmed(alloc, at, out)
}

/// All up to this number are confirmed, if there is one.
fn confirm_to(down: &mut DownSide, delivered: Option<u32>)
    ensures confirms { (codec : Codec) (sn : SnBits) (b : CuUpBearer) → down.old.sending.sn ≡ sn
        → with_down b down.new ≡ confirmed_if (octet_way codec)
        (count_confirmed sn (with_down b down.old) delivered) (with_down b down.old) }
    ensures sn { down.new.sending.sn ≡ down.old.sending.sn }
    ensures quota { down.new.sending.quota ≡ down.old.sending.quota }
{
    let Some(number) = delivered else {
        return;
    };
    down.sending.confirm_to(number);
}

/// A delivery status confirms all up to its number, and reports whether frames were lost.
pub fn take_delivery_status(
    bearer: &mut Bearer,
    alloc: Global,
    at: &Scope,
    lost: &[(u32, u32)],
    delivered: Option<u32>,
    out: &mut Outputs,
) -> Result<(), StepError>
    requires { IsOf at.now bearer.old }
    ensures step { (codec : Codec) → IsStep (step_after out.old
        (took_delivery_status (octet_way codec) (at_as at.now) lost.now
        (count_confirmed at.now.sn (kept bearer.old) delivered) (kept bearer.old)))
        out.new (kept bearer.new) result }
    ensures of { OnOk result (IsOf at.now bearer.new) }
{
    confirm_to(&mut bearer.down, delivered);
    lose_frames(bearer, alloc, at, lost, out)?;
    bearer.down.number_waiting(alloc, at, out)
}
