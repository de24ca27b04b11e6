//! The ends of uplinks, and of the hop's uplink from the source: the end of the hop to the target waits for both.

ghost use Rattle.std.specs.Prelude.{◌≡◌, ◌==◌, not, ◌&&◌, ◌||◌, filter, IfOk};
ghost use Rattle.unit_defs.specs.CuUpBearers.{no_uplink};
ghost use Rattle.unit_defs.specs.CuUpItems.{up_hop_ends_if, uplink_ended, up_ended};
ghost use Rattle.unit_defs.specs.octet_defs.Codec.{Codec, octet_way};
ghost use Rattle.unit_messages.specs.steps.Steps.{IsStep, step_after};
ghost use Rattle.cu_up_bearer.specs.tunnels.Tunnels.{at_as};
ghost use Rattle.cu_up_bearer.specs.bearers.Bearers.{kept};

use crate::ends::ending::pass_end;
use crate::packets::passing::drop_item;
use cu_up_bearer::bearers::Bearer;
use cu_up_bearer::tunnels::{Hop, Scope};
use gnb_types::items::{Items, Memory};
use gnb_types::names::Dir;
use gnb_types::outputs::{Output, Outputs};
use gnb_types::reasons::DropReason;
use std::alloc::Global;
use unit_messages::steps::StepError;

/// Whether the end of the hop to the target is due: all uplinks are closed, the own hop from the source has ended, and it wasn't put
/// yet.
#[tactic(auto, using(crate::proofs::ends::UplinkEnds::none_left))]
fn is_due(bearer: &Bearer, at: &Scope, hop: Hop) -> bool
    ensures { result ≡ (not hop.up_ended && no_uplink bearer.now.uplinks
        && (not at.now.flags.target || bearer.now.up_ended)) }
{
    !hop.up_ended && bearer.uplinks.is_empty() && (!at.flags.target || bearer.up_ended)
}

/// The End Marker of the hop to the target is put where it is due.
fn end_hop_up(
    bearer: &mut Bearer,
    alloc: Global,
    at: &Scope,
    out: &mut Outputs,
) -> Result<(), StepError>
    ensures step { (codec : Codec) → IsStep (step_after out.old
        (up_hop_ends_if (octet_way codec) (at_as at.now) (kept bearer.old).hop (kept bearer.old)))
        out.new (kept bearer.new) result }
    ensures down { bearer.new.down ≡ bearer.old.down }
    ensures receiving { bearer.new.receiving ≡ bearer.old.receiving }
{
    let Some(hop) = bearer.hop else {
        return Ok(());
    };
    if !is_due(bearer, at, hop) {
        return Ok(());
    }
    let ended = Hop {
        peer: hop.peer,
        down: hop.down,
        up: hop.up,
        up_ended: true,
    };
    bearer.hop = Some(ended);
    pass_end(ended, alloc, at, Dir::Ul, out)
}

/// These TEIDs without this one.
fn without(alloc: Global, teids: &[u32], teid: u32) -> Result<Items<u32>, Memory>
    ensures { IfOk result (λ left. left ≡ filter (λ t. not (t == teid)) teids.now) }
{
    let mut left = Items::new(alloc);
    for other in teids {
        if *other != teid {
            left.push(*other)?;
        }
    }
    Ok(left)
}

/// The End Marker of an uplink closes it.
pub fn end_uplink(
    bearer: &mut Bearer,
    alloc: Global,
    at: &Scope,
    teid: u32,
    out: &mut Outputs,
) -> Result<(), StepError>
    ensures step { (codec : Codec) → IsStep (step_after out.old
        (uplink_ended (octet_way codec) (at_as at.now) teid (kept bearer.old)))
        out.new (kept bearer.new) result }
    ensures down { bearer.new.down ≡ bearer.old.down }
    ensures receiving { bearer.new.receiving ≡ bearer.old.receiving }
{
    bearer.uplinks = without(alloc, bearer.uplinks.as_slice(), teid)?;
    out.push(Output::Closed(teid))?;
    end_hop_up(bearer, alloc, at, out)
}

/// The End Marker of the hop's uplink from the source.
pub fn end_up(
    bearer: &mut Bearer,
    alloc: Global,
    at: &Scope,
    out: &mut Outputs,
) -> Result<(), StepError>
    ensures step { (codec : Codec) → IsStep (step_after out.old
        (up_ended (octet_way codec) (at_as at.now) (kept bearer.old)))
        out.new (kept bearer.new) result }
    ensures down { bearer.new.down ≡ bearer.old.down }
    ensures receiving { bearer.new.receiving ≡ bearer.old.receiving }
{
    if bearer.up_ended {
        return drop_item(out, DropReason::Unexpected);
    }
    bearer.up_ended = true;
    end_hop_up(bearer, alloc, at, out)
}
