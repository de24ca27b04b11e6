//! The uplink of a bearer: packets are delivered in the order of their COUNTs (TS 38.323, 5.2.2).

ghost use Rattle.std.specs.Prelude.{OnOk};
ghost use Rattle.unit_defs.specs.CuUpRecords.{CuUpBearer};
ghost use Rattle.unit_defs.specs.CuUpBearers.{deliver_stored};
ghost use Rattle.unit_defs.specs.octet_defs.Codec.{Codec, octet_way};
ghost use Rattle.unit_messages.specs.steps.Steps.{IsStep, step_after};
ghost use Rattle.cu_up_bearer.specs.tunnels.Tunnels.{at_as};
ghost use Rattle.cu_up_bearer.specs.bearers.Bearers.{with_receiver, IsUp};

use crate::tunnels::Scope;
use gnb_types::names::Dir;
use gnb_types::outputs::{Output, Outputs};
use pdcp_bearers::ue_bearers::{Delivered, Receiver as Receiving};
use std::alloc::Global;
use unit_messages::steps::StepError;

/// Delivers in order what is stored.
pub fn deliver_stored(
    receiving: &mut Receiving,
    alloc: Global,
    at: &Scope,
    out: &mut Outputs,
) -> Result<(), StepError>
    requires { IsUp at.now receiving.old }
    ensures step { (codec : Codec) (b : CuUpBearer) → IsStep (step_after out.old
        (deliver_stored (octet_way codec) (at_as at.now) (with_receiver b receiving.old)))
        out.new (with_receiver b receiving.new) result }
    ensures up { OnOk result (IsUp at.now receiving.new) }
{
    while let Some(Delivered { count, packet }) = receiving.deliver(alloc)? {
        out.push(Output::Deliver {
            ue: at.ue,
            bearer: at.bearer,
            dir: Dir::Ul,
            count,
            packet,
        })?;
    }
    Ok(())
}
