//! What octets on a tunnel say. A reader evaluates neither spare bits and unused fields nor the TEID in the octets.

ghost use Rattle.std.specs.Prelude.{◌≡◌, IfSome, IfNone, IsSomeAnd};
ghost use Rattle.gnb_types.specs.declared.names.SnBits.{SnBits as Bits};
ghost use Rattle.gtpu.specs.Headers.{IsChain};
ghost use Rattle.gtpu.specs.Packets.{view};
ghost use Rattle.link_defs.specs.Decoding.{Item, n3, f1u_downlink, f1u_uplink, forwarding_down, forwarding_up, Says, DecodesOn};
ghost use Rattle.link_packets.specs.Items.{n3_item, downlink_item, uplink_item, forwarded_item};

use crate::layers::{data_of, fresh_of, is_end, numbered_of, pdu_of, read_radio, status_of};
use gnb_types::names::SnBits;
use gtpu::Packet;
use nr_user_plane::ranges::Ranges;
use pdcp::pdu::Pdu;

/// A packet of N3 downlink.
#[derive(Clone, Copy, PartialEq, Eq)]
pub enum N3<'a> {
    Packet(&'a [u8]),
    End,
}

/// A packet of F1-U downlink, after its NR-U number.
#[derive(Clone, Copy, PartialEq, Eq)]
pub enum F1uDownlink<'a> {
    /// A PDCP PDU and its octets.
    Pdu {
        restart: bool,
        number: u32,
        content: Pdu<'a>,
        octets: &'a [u8],
    },
    Poll {
        restart: bool,
        number: u32,
    },
}

/// A packet of F1-U uplink.
#[derive(Drop, PartialEq, Eq)]
pub enum F1uUplink<'a> {
    /// A PDCP PDU and its octets.
    Pdu {
        content: Pdu<'a>,
        octets: &'a [u8],
    },
    /// A delivery status: the desired buffer size, the lost NR-U numbers, and the delivered PDCP number.
    Status {
        room: u32,
        lost: Ranges,
        delivered: Option<u32>,
    },
    End,
}

/// A packet of a forwarding tunnel.
#[derive(Clone, Copy, PartialEq, Eq)]
pub enum Forwarded<'a> {
    /// A packet without a number.
    Fresh(&'a [u8]),
    /// A packet and its PDCP sequence number.
    Numbered { number: u32, packet: &'a [u8] },
    End,
}

/// Reads a packet of N3 downlink; None where the octets decode to none.
pub fn read_n3(octets: &[u8]) -> Option<N3<'_>>
    ensures found { (sn : Bits) → IfSome result (λ x. DecodesOn n3 sn (n3_item x) octets.now) }
    ensures only { (sn : Bits) (item : Item) → DecodesOn n3 sn item octets.now
        → IsSomeAnd result (λ x. n3_item x ≡ item) }
{
    match gtpu::decode(octets) {
        Ok(packet) => n3_of(&packet),
        Err(_) => None,
    }
}

fn n3_of<'a>(packet: &Packet<'a>) -> Option<N3<'a>>
    ensures found { (sn : Bits) → IfSome result (λ x. Says n3 sn (n3_item x) (view packet.now)) }
    ensures none { (sn : Bits) (item : Item) → IfNone result (Says n3 sn item (view packet.now)
        → ⊥) }
{
    if is_end(packet) {
        return Some(N3::End);
    }
    match fresh_of(packet) {
        Some(payload) => Some(N3::Packet(payload)),
        None => None,
    }
}

/// Reads a packet of F1-U downlink; None where the octets decode to none.
pub fn read_f1u_downlink(sn: SnBits, octets: &[u8]) -> Option<F1uDownlink<'_>>
    ensures found { IfSome result (λ x. DecodesOn f1u_downlink sn (downlink_item x) octets.now) }
    ensures only { (item : Item) → DecodesOn f1u_downlink sn item octets.now
        → IsSomeAnd result (λ x. downlink_item x ≡ item) }
{
    match gtpu::decode(octets) {
        Ok(packet) => f1u_downlink_of(sn, &packet),
        Err(_) => None,
    }
}

fn f1u_downlink_of<'a>(sn: SnBits, packet: &Packet<'a>) -> Option<F1uDownlink<'a>>
    requires { IsChain packet.now.first packet.now.chain.now }
    ensures found { IfSome result (λ x. Says f1u_downlink sn (downlink_item x) (view packet.now)) }
    ensures none { (item : Item) → IfNone result (Says f1u_downlink sn item (view packet.now) → ⊥) }
{
    let Some((poll, restart, number)) = data_of(packet) else {
        return None;
    };
    if poll {
        return if packet.payload.is_empty() {
            Some(F1uDownlink::Poll { restart, number })
        } else {
            None
        };
    }
    let content = read_radio(sn, packet.payload)?;
    Some(F1uDownlink::Pdu {
        restart,
        number,
        content,
        octets: packet.payload,
    })
}

/// Reads a packet of F1-U uplink; None where the octets decode to none.
pub fn read_f1u_uplink(sn: SnBits, octets: &[u8]) -> Option<F1uUplink<'_>>
    ensures found { IfSome result (λ x. DecodesOn f1u_uplink sn (uplink_item x) octets.now) }
    ensures only { (item : Item) → DecodesOn f1u_uplink sn item octets.now
        → IsSomeAnd result (λ x. uplink_item x ≡ item) }
{
    match gtpu::decode(octets) {
        Ok(packet) => f1u_uplink_of(sn, &packet),
        Err(_) => None,
    }
}

fn f1u_uplink_of<'a>(sn: SnBits, packet: &Packet<'a>) -> Option<F1uUplink<'a>>
    requires { IsChain packet.now.first packet.now.chain.now }
    ensures found { IfSome result (λ x. Says f1u_uplink sn (uplink_item x) (view packet.now)) }
    ensures none { (item : Item) → IfNone result (Says f1u_uplink sn item (view packet.now) → ⊥) }
{
    if is_end(packet) {
        return Some(F1uUplink::End);
    }
    if let Some(content) = pdu_of(sn, packet) {
        return Some(F1uUplink::Pdu {
            content,
            octets: packet.payload,
        });
    }
    match status_of(packet) {
        Some((room, lost, delivered)) => Some(F1uUplink::Status {
            room,
            lost,
            delivered,
        }),
        None => None,
    }
}

/// Reads a packet of a forwarding tunnel for downlink; None where the octets decode to none.
pub fn read_forwarding_down(sn: SnBits, octets: &[u8]) -> Option<Forwarded<'_>>
    ensures found { IfSome result (λ x. DecodesOn forwarding_down sn (forwarded_item x) octets.now) }
    ensures only { (item : Item) → DecodesOn forwarding_down sn item octets.now
        → IsSomeAnd result (λ x. forwarded_item x ≡ item) }
{
    match gtpu::decode(octets) {
        Ok(packet) => forwarding_down_of(sn, &packet),
        Err(_) => None,
    }
}

fn forwarding_down_of<'a>(sn: SnBits, packet: &Packet<'a>) -> Option<Forwarded<'a>>
    requires { IsChain packet.now.first packet.now.chain.now }
    ensures found { IfSome result (λ x. Says forwarding_down sn (forwarded_item x) (view packet.now)) }
    ensures none { (item : Item) → IfNone result (Says forwarding_down sn item (view packet.now)
        → ⊥) }
{
    match fresh_of(packet) {
        Some(payload) => Some(Forwarded::Fresh(payload)),
        None => forwarding_up_of(sn, packet),
    }
}

/// Reads a packet of a forwarding tunnel for uplink; None where the octets decode to none.
pub fn read_forwarding_up(sn: SnBits, octets: &[u8]) -> Option<Forwarded<'_>>
    ensures found { IfSome result (λ x. DecodesOn forwarding_up sn (forwarded_item x) octets.now) }
    ensures only { (item : Item) → DecodesOn forwarding_up sn item octets.now
        → IsSomeAnd result (λ x. forwarded_item x ≡ item) }
{
    match gtpu::decode(octets) {
        Ok(packet) => forwarding_up_of(sn, &packet),
        Err(_) => None,
    }
}

fn forwarding_up_of<'a>(sn: SnBits, packet: &Packet<'a>) -> Option<Forwarded<'a>>
    requires { IsChain packet.now.first packet.now.chain.now }
    ensures found { IfSome result (λ x. Says forwarding_up sn (forwarded_item x) (view packet.now)) }
    ensures none { (item : Item) → IfNone result (Says forwarding_up sn item (view packet.now)
        → ⊥) }
{
    if is_end(packet) {
        return Some(Forwarded::End);
    }
    match numbered_of(sn, packet) {
        Some((number, payload)) => Some(Forwarded::Numbered {
            number,
            packet: payload,
        }),
        None => None,
    }
}
