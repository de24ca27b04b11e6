//! An item that isn't held, by the kind of its tunnel.

ghost use Rattle.std.specs.Prelude.{◌≡◌, None, false, OnOk};
ghost use Rattle.pdcp.specs.Pdus.{content_of};
ghost use Rattle.pdcp_defs.specs.Counts.{near_count, count_below};
ghost use Rattle.unit_defs.specs.CuUpRecords.{n3, f1u_uplink, forwarding_down, forwarding_up};
ghost use Rattle.unit_defs.specs.CuUpItems.{took, took_content, first_held, held_content};
ghost use Rattle.unit_defs.specs.octet_defs.Codec.{Codec, octet_way};
ghost use Rattle.unit_defs.specs.octet_defs.Reading.{content_by};
ghost use Rattle.unit_messages.specs.steps.Steps.{IsStep, step_after};
ghost use Rattle.cu_up_bearer.specs.tunnels.Tunnels.{at_as};
ghost use Rattle.cu_up_bearer.specs.bearers.Bearers.{kept, IsOf};
ghost use Rattle.cu_up_items.specs.items.Items.{kind_as, item_as, IsSizedItem, IsSizedContent};
ghost use Rattle.cu_up_items.specs.declared.items.items.Kind.TheVariants as kinds;
ghost use Rattle.cu_up_items.specs.items.Coming.{said, held_of};

use crate::ends::ending::end_n3;
use crate::ends::uplinks::{end_up, end_uplink};
use crate::items::items::{CuUpItem, Kind};
use crate::packets::confirming::{take_delivery_status, take_report};
use crate::packets::passing::drop_item;
use crate::packets::taking::{end_down, take_fresh, take_numbered};
use crate::uplinks::taking::take_uplink;
use cu_up_bearer::bearers::Bearer;
use cu_up_bearer::tunnels::Scope;
use forwarding::TargetHop;
use gnb_types::names::SnBits;
use gnb_types::octets::Octets;
use gnb_types::outputs::Outputs;
use gnb_types::reasons::DropReason;
use pdcp::pdu::Pdu;
use std::alloc::Global;
use unit_messages::steps::StepError;

/// An item of N3.
fn take_n3(
    bearer: &mut Bearer,
    alloc: Global,
    at: &Scope,
    teid: u32,
    item: &CuUpItem<'_>,
    out: &mut Outputs,
) -> Result<(), StepError>
    requires sized { IsSizedItem (item_as item.now) }
    requires free { held_of at.now (kept bearer.old) kinds.N3 item.now ≡ None }
    requires of { IsOf at.now bearer.old }
    ensures step { (codec : Codec) → IsStep (step_after out.old
        (took (octet_way codec) (at_as at.now) n3 teid (said at.now (kept bearer.old) kinds.N3 item.now)
        (kept bearer.old))) out.new (kept bearer.new) result }
    ensures of { OnOk result (IsOf at.now bearer.new) }
{
    match item {
        CuUpItem::Fresh(packet) => {
            let packet = Octets::from_slice(alloc, packet)?;
            take_fresh(bearer, alloc, at, packet, out)
        }
        CuUpItem::End => end_n3(bearer, alloc, at, out),
        CuUpItem::Numbered { .. } => drop_item(out, DropReason::Unexpected),
        CuUpItem::Pdu { .. } => drop_item(out, DropReason::Unexpected),
        CuUpItem::Status { .. } => drop_item(out, DropReason::Unexpected),
    }
}

/// The COUNT of a number among those that the source gave.
fn count_forwarded(sn: SnBits, next: u32, number: u32) -> Option<u32>
    ensures { result ≡ count_below sn next number }
{
    let mut hop = TargetHop::new(sn);
    hop.status(next);
    hop.count_of(number).ok()
}

/// An item of the hop's downlink from the source.
fn take_forwarded_down(
    bearer: &mut Bearer,
    alloc: Global,
    at: &Scope,
    teid: u32,
    item: &CuUpItem<'_>,
    out: &mut Outputs,
) -> Result<(), StepError>
    requires sized { IsSizedItem (item_as item.now) }
    requires free { held_of at.now (kept bearer.old) kinds.ForwardingDown item.now ≡ None }
    requires of { IsOf at.now bearer.old }
    ensures step { (codec : Codec) → IsStep (step_after out.old
        (took (octet_way codec) (at_as at.now) forwarding_down teid (said at.now (kept bearer.old) kinds.ForwardingDown item.now)
        (kept bearer.old))) out.new (kept bearer.new) result }
    ensures of { OnOk result (IsOf at.now bearer.new) }
{
    match item {
        CuUpItem::Fresh(packet) => {
            let packet = Octets::from_slice(alloc, packet)?;
            take_fresh(bearer, alloc, at, packet, out)
        }
        CuUpItem::Numbered { number, packet } => {
            let count = count_forwarded(at.sn, bearer.dl_next, *number);
            take_numbered(bearer, alloc, at, count, packet, out)
        }
        CuUpItem::End => end_down(bearer, out),
        CuUpItem::Pdu { .. } => drop_item(out, DropReason::Unexpected),
        CuUpItem::Status { .. } => drop_item(out, DropReason::Unexpected),
    }
}

/// An item of the hop's uplink from the source.
fn take_forwarded_up(
    bearer: &mut Bearer,
    alloc: Global,
    at: &Scope,
    teid: u32,
    item: &CuUpItem<'_>,
    out: &mut Outputs,
) -> Result<(), StepError>
    requires sized { IsSizedItem (item_as item.now) }
    requires free { held_of at.now (kept bearer.old) kinds.ForwardingUp item.now ≡ None }
    requires of { IsOf at.now bearer.old }
    ensures step { (codec : Codec) → IsStep (step_after out.old
        (took (octet_way codec) (at_as at.now) forwarding_up teid (said at.now (kept bearer.old) kinds.ForwardingUp item.now)
        (kept bearer.old))) out.new (kept bearer.new) result }
    ensures of { OnOk result (IsOf at.now bearer.new) }
{
    match item {
        CuUpItem::Numbered { number, packet } => {
            take_uplink(bearer, alloc, at, *number, packet, out)
        }
        CuUpItem::End => end_up(bearer, alloc, at, out),
        CuUpItem::Fresh(_) => drop_item(out, DropReason::Unexpected),
        CuUpItem::Pdu { .. } => drop_item(out, DropReason::Unexpected),
        CuUpItem::Status { .. } => drop_item(out, DropReason::Unexpected),
    }
}

/// A PDU of the terminal: a packet, or a status report.
fn take_pdu(
    bearer: &mut Bearer,
    alloc: Global,
    at: &Scope,
    content: Pdu<'_>,
    out: &mut Outputs,
) -> Result<(), StepError>
    requires sized { IsSizedContent (content_of content) }
    requires free { at.now.flags.released ≡ false → first_held (held_content (at_as at.now) (kept bearer.old)
        (content_by (near_count at.now.sn bearer.old.receiving.receiver.deliv) (content_of content))) ≡ None }
    requires of { IsOf at.now bearer.old }
    ensures step { (codec : Codec) → IsStep (step_after out.old
        (took_content (octet_way codec) (at_as at.now)
        (content_by (near_count at.now.sn bearer.old.receiving.receiver.deliv) (content_of content.entry))
        (kept bearer.old))) out.new (kept bearer.new) result }
    ensures of { OnOk result (IsOf at.now bearer.new) }
{
    match content {
        Pdu::Packet { sn, packet } => take_uplink(bearer, alloc, at, sn, packet, out),
        Pdu::Report { fmc, bits } => take_report(bearer, alloc, at, fmc, bits, out),
    }
}

/// An item of an F1-U uplink.
fn take_f1u(
    bearer: &mut Bearer,
    alloc: Global,
    at: &Scope,
    teid: u32,
    item: &CuUpItem<'_>,
    out: &mut Outputs,
) -> Result<(), StepError>
    requires sized { IsSizedItem (item_as item.now) }
    requires free { held_of at.now (kept bearer.old) kinds.F1uUplink item.now ≡ None }
    requires of { IsOf at.now bearer.old }
    ensures step { (codec : Codec) → IsStep (step_after out.old
        (took (octet_way codec) (at_as at.now) f1u_uplink teid (said at.now (kept bearer.old) kinds.F1uUplink item.now)
        (kept bearer.old))) out.new (kept bearer.new) result }
    ensures of { OnOk result (IsOf at.now bearer.new) }
{
    match item {
        CuUpItem::Pdu { content, .. } => take_pdu(bearer, alloc, at, *content, out),
        CuUpItem::Status {
            lost,
            delivered,
            ..
        } => take_delivery_status(bearer, alloc, at, lost.as_slice(), *delivered, out),
        CuUpItem::End => end_uplink(bearer, alloc, at, teid, out),
        CuUpItem::Fresh(_) => drop_item(out, DropReason::Unexpected),
        CuUpItem::Numbered { .. } => drop_item(out, DropReason::Unexpected),
    }
}

/// An item that isn't held.
pub fn take(
    bearer: &mut Bearer,
    alloc: Global,
    at: &Scope,
    kind: Kind,
    teid: u32,
    item: &CuUpItem<'_>,
    out: &mut Outputs,
) -> Result<(), StepError>
    requires sized { IsSizedItem (item_as item.now) }
    requires free { held_of at.now (kept bearer.old) kind item.now ≡ None }
    requires of { IsOf at.now bearer.old }
    ensures step { (codec : Codec) → IsStep (step_after out.old
        (took (octet_way codec) (at_as at.now) (kind_as kind) teid (said at.now (kept bearer.old) kind item.now)
        (kept bearer.old))) out.new (kept bearer.new) result }
    ensures of { OnOk result (IsOf at.now bearer.new) }
{
    match kind {
        Kind::N3 => take_n3(bearer, alloc, at, teid, item, out),
        Kind::F1uUplink => take_f1u(bearer, alloc, at, teid, item, out),
        Kind::ForwardingDown => take_forwarded_down(bearer, alloc, at, teid, item, out),
        Kind::ForwardingUp => take_forwarded_up(bearer, alloc, at, teid, item, out),
    }
}
