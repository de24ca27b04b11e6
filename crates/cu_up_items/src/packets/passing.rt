//! A packet that just came goes on to the target, where there is a hop; or it is dropped.

ghost use Rattle.std.specs.Prelude.{◌≡◌};
ghost use Rattle.gnb_types.specs.declared.names.Dir.TheVariants.{Dl};
ghost use Rattle.gnb_types.specs.declared.outputs.Tag.TheVariants.{Absent};
ghost use Rattle.link_defs.specs.Decoding.{IsSized};
ghost use Rattle.unit_defs.specs.CuUpRecords.{CuUpBearer};
ghost use Rattle.unit_defs.specs.Ways.{fresh, numbered, drops};
ghost use Rattle.unit_defs.specs.octet_defs.Codec.{Codec, octet_way};
ghost use Rattle.unit_messages.specs.steps.Steps.{IsStep, step_after};
ghost use Rattle.cu_up_bearer.specs.tunnels.Tunnels.{at_as, hop_as};
ghost use Rattle.cu_up_items.specs.packets.Passing.{passed_on};

use cu_up_bearer::tunnels::{Hop, Scope, ShownCount};
use gnb_types::names::Dir;
use gnb_types::outputs::{Output, Outputs};
use gnb_types::reasons::DropReason;
use std::alloc::Global;
use unit_messages::steps::StepError;

/// The item is ignored for this reason.
pub fn drop_item(out: &mut Outputs, reason: DropReason) -> Result<(), StepError>
    ensures { (b : CuUpBearer) → IsStep (step_after out.old (drops reason b)) out.new b result }
{
    out.push(Output::Drop(reason))?;
    Ok(())
}

/// A packet with its COUNT.
pub fn pass_counted(
    hop: Option<Hop>,
    alloc: Global,
    at: &Scope,
    dir: Dir,
    shown: ShownCount,
    packet: &[u8],
    out: &mut Outputs,
) -> Result<(), StepError>
    requires { IsSized packet.now }
    ensures { (codec : Codec) (b : CuUpBearer) → b.hop ≡ hop_as hop → IsStep (step_after out.old
        (passed_on (octet_way codec) dir (at_as at.now) shown.tag
        (numbered at.now.sn shown.count packet.now) b)) out.new b result }
{
    let Some(hop) = hop else {
        return Ok(());
    };
    hop.put_counted(alloc, at, dir, shown, packet, out)?;
    Ok(())
}

/// A downlink packet without a COUNT.
pub fn pass_fresh(
    hop: Option<Hop>,
    alloc: Global,
    at: &Scope,
    packet: &[u8],
    out: &mut Outputs,
) -> Result<(), StepError>
    requires { IsSized packet.now }
    ensures { (codec : Codec) (b : CuUpBearer) → b.hop ≡ hop_as hop → IsStep (step_after out.old
        (passed_on (octet_way codec) Dl (at_as at.now) Absent (fresh packet.now) b)) out.new b result }
{
    let Some(hop) = hop else {
        return Ok(());
    };
    hop.put_fresh(alloc, at, packet, out)?;
    Ok(())
}
