//! When an item stays at the head of its tunnel (TS 38.300, 9.2.3.2.3): before the SN status, before the terminal arrived, behind what
//! the source still forwards, and where it has no room.

ghost use Rattle.std.specs.Prelude.{◌≡◌, ◌++◌, [], if◌then◌else◌};
ghost use Rattle.pdcp_defs.specs.Counts.{near_count};
ghost use Rattle.unit_defs.specs.CuUpItems.{first_held, held_as_target, held_downlink, held_uplink, held_by_room, held_reason, is_n3};
ghost use Rattle.unit_defs.specs.octet_defs.Reading.{up_item, link_of};
ghost use Rattle.cu_up_bearer.specs.tunnels.Tunnels.{at_as, flags_as};
ghost use Rattle.cu_up_bearer.specs.bearers.Bearers.{kept, IsOf};
ghost use Rattle.cu_up_items.specs.items.Items.{kind_as, item_as};

use crate::items::items::{CuUpItem, Kind};
use cu_up_bearer::bearers::Bearer;
use cu_up_bearer::tunnels::Scope;
use gnb_types::reasons::HeldReason;
use pdcp::pdu::Pdu;

fn is_n3(kind: Kind) -> bool
    ensures { result ≡ is_n3 (kind_as kind) }
{
    match kind {
        Kind::N3 => true,
        Kind::F1uUplink | Kind::ForwardingDown | Kind::ForwardingUp => false,
    }
}

/// A target knows neither its COUNTs before the SN status, nor where to send before the terminal arrived; and its own N3 is after what
/// the source still forwards.
fn held_as_target(bearer: &Bearer, at: &Scope, kind: Kind) -> Option<HeldReason>
    ensures { result ≡ first_held (held_as_target (flags_as at.now.flags) (kind_as kind) (kept bearer.now)) }
{
    if !at.flags.may_serve {
        return Some(HeldReason::NoStatus);
    }
    if !at.flags.arrived {
        return Some(HeldReason::NotArrived);
    }
    if is_n3(kind) && at.flags.target && !bearer.down_ended {
        return Some(HeldReason::Early);
    }
    None
}

/// A downlink packet needs a block of the quota.
fn held_downlink(bearer: &Bearer, at: &Scope) -> Option<HeldReason>
    ensures { result ≡ first_held (held_downlink (at_as at.now) (kept bearer.now)) }
{
    if u32::from(at.quota) <= bearer.down.sending.used() {
        return Some(HeldReason::Quota);
    }
    None
}

/// So does an uplink packet, and its COUNT must lie in the window of the quota.
fn held_uplink(bearer: &Bearer, at: &Scope, number: u32) -> Option<HeldReason>
    requires { IsOf at.now bearer.now }
    ensures { result ≡ first_held (held_uplink (at_as at.now) (kept bearer.now)
        (near_count at.now.sn bearer.now.receiving.receiver.deliv number)) }
{
    if u32::from(at.quota) <= bearer.receiving.len() {
        return Some(HeldReason::Quota);
    }
    let count = bearer.receiving.count_of(number)?;
    if u64::from(bearer.receiving.awaited()) + u64::from(at.quota) <= u64::from(count) {
        return Some(HeldReason::Ahead);
    }
    None
}

/// Whether a packet has no room. A released context keeps none, so it needs no room.
fn held_by_room(bearer: &Bearer, at: &Scope, kind: Kind, item: &CuUpItem<'_>) -> Option<HeldReason>
    requires { IsOf at.now bearer.now }
    ensures { result ≡ first_held (held_by_room (at_as at.now) (kept bearer.now) (kind_as kind)
        (up_item at.now.sn (kept bearer.now) (link_of (kind_as kind)) (item_as item.now))) }
{
    if at.flags.released {
        return None;
    }
    match (kind, item) {
        (Kind::N3 | Kind::ForwardingDown, CuUpItem::Fresh(_)) => held_downlink(bearer, at),
        (Kind::ForwardingDown, CuUpItem::Numbered { .. }) => held_downlink(bearer, at),
        (Kind::ForwardingUp, CuUpItem::Numbered { number, .. }) => held_uplink(bearer, at, *number),
        (
            Kind::F1uUplink,
            CuUpItem::Pdu {
                content: Pdu::Packet { sn, .. },
                ..
            },
        ) => held_uplink(bearer, at, *sn),
        _ => None,
    }
}

/// Why an item is held, if it is.
#[tactic(auto, unfolding(unit_defs::specs::CuUpItems::held_reason))]
pub fn held_reason(
    bearer: &Bearer,
    at: &Scope,
    kind: Kind,
    item: &CuUpItem<'_>,
) -> Option<HeldReason>
    requires { IsOf at.now bearer.now }
    ensures { result ≡ held_reason (at_as at.now) (kept bearer.now) (kind_as kind)
        (up_item at.now.sn (kept bearer.now) (link_of (kind_as kind)) (item_as item.now)) }
{
    match held_as_target(bearer, at, kind) {
        Some(reason) => Some(reason),
        None => held_by_room(bearer, at, kind, item),
    }
}
