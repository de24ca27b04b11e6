//! Freeze: all that is held goes to the target, and the SN status says where it is to go on. And release.

ghost use Rattle.std.specs.Prelude.{◌≡◌, Some, false, IfOk, OnOk};
ghost use Rattle.unit_defs.specs.CuUpBearers.{some_bits, status_of, frozen_to, released};
ghost use Rattle.unit_defs.specs.octet_defs.Codec.{Codec, octet_way};
ghost use Rattle.unit_messages.specs.steps.Steps.{IsStep, step_after, stepped};
ghost use Rattle.cu_up_bearer.specs.declared.tunnels.at.Scope.{Scope};
ghost use Rattle.cu_up_bearer.specs.tunnels.Tunnels.{at_as, hop_as};
ghost use Rattle.cu_up_bearer.specs.bearers.Bearers.{kept, IsOf};
ghost use Rattle.cu_up_bearer.specs.orders.Orders.{IsEmpty, all_given};

use crate::bearers::Bearer;
use crate::bearers::forwarding::{forward_unconfirmed, forward_waiting};
use crate::bearers::late::forward_stored;
use crate::orders::serving::thaw;
use crate::tunnels::{Hop, Scope};
use gnb_types::bits::Bits;
use gnb_types::items::Memory;
use gnb_types::names::BearerId;
use gnb_types::outputs::Outputs;
use gnb_types::plans::SnStatus;
use std::alloc::Global;
use unit_messages::steps::StepError;

/// All that is held goes to the target: what nothing confirmed, what waits, and what is stored of the uplink.
fn give_all(
    hop: Hop,
    bearer: &Bearer,
    alloc: Global,
    at: &Scope,
    out: &mut Outputs,
) -> Result<(), Memory>
    requires { IsOf at.now bearer.now }
    ensures { (codec : Codec) → hop_as bearer.now.hop ≡ hop_as (Some hop) → OnOk result
        (step_after out.old (all_given (octet_way codec) (at_as at.now) (kept bearer.now)) ≡ stepped out.new (kept bearer.now)) }
{
    forward_unconfirmed(hop, &bearer.down.sending, alloc, at, out)?;
    forward_waiting(hop, &bearer.down.sending, alloc, at, out)?;
    forward_stored(hop, &bearer.receiving, alloc, at, out)
}

/// All that is held goes to the target, and so does what comes from now on.
#[tactic(auto, unfolding(unit_defs::specs::CuUpBearers::frozen_to))]
pub fn freeze(
    bearer: &mut Bearer,
    alloc: Global,
    at: &Scope,
    hop: Hop,
    out: &mut Outputs,
) -> Result<(), StepError>
    requires new { hop.up_ended ≡ false }
    requires of { IsOf at.now bearer.old }
    ensures step { (codec : Codec) → IsStep (step_after out.old
        (frozen_to (octet_way codec) (at_as at.now) hop.peer hop.down hop.up (kept bearer.old)))
        out.new (kept bearer.new) result }
    ensures down { bearer.new.down ≡ bearer.old.down }
    ensures receiving { bearer.new.receiving ≡ bearer.old.receiving }
{
    thaw(bearer, alloc);
    bearer.hop = Some(hop);
    give_all(hop, bearer, alloc, at, out)?;
    Ok(())
}

/// The bits, None where there are none.
fn some_bits(bits: Bits) -> Option<Bits>
    ensures { result ≡ some_bits bits }
{
    if bits.is_empty() { None } else { Some(bits) }
}

/// Where the target is to go on.
pub fn status(bearer: &Bearer, alloc: Global, id: BearerId) -> Result<SnStatus, Memory>
    ensures { IfOk result (λ s. s ≡ status_of id (kept bearer.now)) }
{
    let (ul_first, bits) = bearer.receiving.report(alloc)?;
    Ok(SnStatus {
        bearer: id,
        dl_next: bearer.down.sending.next(),
        ul_first,
        ul_received: some_bits(bits),
    })
}

/// No packet is kept any more.
pub fn release(bearer: &mut Bearer, alloc: Global)
    ensures released { kept bearer.new ≡ released (kept bearer.old) }
    ensures of { (a : Scope) → IsOf a bearer.old → IsOf a bearer.new }
    ensures empty { IsEmpty bearer.new }
{
    bearer.down.sending.clear(alloc);
    bearer.receiving.clear();
}
