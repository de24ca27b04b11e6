//! The kinds of tunnels that end at a CU-UP, and what stands on them.

ghost use Rattle.std.specs.Prelude.{◌≡◌, IfSome};
ghost use Rattle.gnb_types.specs.declared.names.SnBits.{SnBits as Bits};
ghost use Rattle.link_defs.specs.Decoding.{n3, f1u_uplink, forwarding_down, forwarding_up};
ghost use Rattle.std.specs.Option.{option_map};
ghost use Rattle.unit_defs.specs.codec_defs.Reading.{ReadsItems};
ghost use Rattle.link_packets.specs.Items.{n3_item, uplink_item, forwarded_item};
ghost use Rattle.unit_defs.specs.octet_defs.Codec.{Codec};
ghost use Rattle.unit_defs.specs.octet_defs.Reading.{link_of};
ghost use Rattle.cu_up_items.specs.items.Items.{kind_as, item_as, IsSizedItem};

use gnb_types::names::SnBits;
use link_packets::{
    F1uUplink, Forwarded, N3, read_f1u_uplink, read_forwarding_down, read_forwarding_up, read_n3,
};
use nr_user_plane::ranges::Ranges;
use pdcp::pdu::Pdu;

/// The kinds of tunnels that end at a CU-UP.
#[derive(Clone, Copy)]
pub enum Kind {
    N3,
    F1uUplink,
    ForwardingDown,
    ForwardingUp,
}

/// What an item of a tunnel says.
#[derive(Drop)]
pub enum CuUpItem<'a> {
    /// A packet without a number.
    Fresh(&'a [u8]),
    /// A packet and its PDCP sequence number.
    Numbered {
        number: u32,
        packet: &'a [u8],
    },
    /// A PDCP PDU and its octets.
    Pdu {
        content: Pdu<'a>,
        octets: &'a [u8],
    },
    /// A delivery status: the desired buffer size, the lost NR-U numbers, and the delivered PDCP number.
    Status {
        room: u32,
        lost: Ranges,
        delivered: Option<u32>,
    },
    End,
}

fn of_n3<'a>(item: N3<'a>) -> CuUpItem<'a>
    ensures { item_as result ≡ n3_item item.entry }
{
    match item {
        N3::Packet(packet) => CuUpItem::Fresh(packet),
        N3::End => CuUpItem::End,
    }
}

fn of_uplink<'a>(item: F1uUplink<'a>) -> CuUpItem<'a>
    ensures { item_as result ≡ uplink_item item.entry }
{
    match item {
        F1uUplink::Pdu { content, octets } => CuUpItem::Pdu { content, octets },
        F1uUplink::Status {
            room,
            lost,
            delivered,
        } => CuUpItem::Status {
            room,
            lost,
            delivered,
        },
        F1uUplink::End => CuUpItem::End,
    }
}

fn of_forwarded<'a>(item: Forwarded<'a>) -> CuUpItem<'a>
    ensures { item_as result ≡ forwarded_item item.entry }
{
    match item {
        Forwarded::Fresh(packet) => CuUpItem::Fresh(packet),
        Forwarded::Numbered { number, packet } => CuUpItem::Numbered { number, packet },
        Forwarded::End => CuUpItem::End,
    }
}

fn read_on_n3(octets: &[u8]) -> Option<CuUpItem<'_>>
    ensures item { (codec : Codec) (sn : Bits) → ReadsItems codec → codec.read_item n3 sn octets.now ≡ option_map item_as result }
    ensures sized { IfSome result (λ item. IsSizedItem (item_as item)) }
{
    match read_n3(octets) {
        Some(item) => Some(of_n3(item)),
        None => None,
    }
}

fn read_on_uplink(sn: SnBits, octets: &[u8]) -> Option<CuUpItem<'_>>
    ensures item { (codec : Codec) → ReadsItems codec → codec.read_item f1u_uplink sn octets.now ≡ option_map item_as result }
    ensures sized { IfSome result (λ item. IsSizedItem (item_as item)) }
{
    match read_f1u_uplink(sn, octets) {
        Some(item) => Some(of_uplink(item)),
        None => None,
    }
}

fn read_on_forwarding_down(sn: SnBits, octets: &[u8]) -> Option<CuUpItem<'_>>
    ensures item { (codec : Codec) → ReadsItems codec → codec.read_item forwarding_down sn octets.now ≡ option_map item_as result }
    ensures sized { IfSome result (λ item. IsSizedItem (item_as item)) }
{
    match read_forwarding_down(sn, octets) {
        Some(item) => Some(of_forwarded(item)),
        None => None,
    }
}

fn read_on_forwarding_up(sn: SnBits, octets: &[u8]) -> Option<CuUpItem<'_>>
    ensures item { (codec : Codec) → ReadsItems codec → codec.read_item forwarding_up sn octets.now ≡ option_map item_as result }
    ensures sized { IfSome result (λ item. IsSizedItem (item_as item)) }
{
    match read_forwarding_up(sn, octets) {
        Some(item) => Some(of_forwarded(item)),
        None => None,
    }
}

/// Reads an item of a tunnel of this kind; None where the octets decode to none.
pub fn read_item(kind: Kind, sn: SnBits, octets: &[u8]) -> Option<CuUpItem<'_>>
    ensures item { (codec : Codec) → ReadsItems codec
        → codec.read_item (link_of (kind_as kind)) sn octets.now ≡ option_map item_as result }
    ensures sized { IfSome result (λ item. IsSizedItem (item_as item)) }
{
    match kind {
        Kind::N3 => read_on_n3(octets),
        Kind::F1uUplink => read_on_uplink(sn, octets),
        Kind::ForwardingDown => read_on_forwarding_down(sn, octets),
        Kind::ForwardingUp => read_on_forwarding_up(sn, octets),
    }
}
