//! What a packet of GTP-U may be on a link, each exactly.

ghost use Rattle.std.specs.Prelude.{◌≡◌, ◌↔◌, ℕ, Bool, List, [], Option, IsTrue, IfSome, IfNone, IsSomeAnd};
ghost use Rattle.gtpu.specs.Headers.{IsChain};
ghost use Rattle.gtpu.specs.Packets.{view};
ghost use Rattle.gtpu.specs.declared.Kind.TheVariants.{GPdu};
ghost use Rattle.nr_user_plane.specs.declared.frames.Frame.{Frame as FrameValue};
ghost use Rattle.nr_user_plane.specs.declared.frames.Frame.TheVariants.{Data, Status};
ghost use Rattle.pdcp.specs.Pdus.{Content, content_of};
ghost use Rattle.link_defs.specs.Decoding.{IsSized, CarriesPdu, IsBare, HasHeader, SaysFresh, SaysNumbered, SaysEnd};
ghost use Rattle.link_packets.specs.Parts.{HasFrame, HasNumber};

use gnb_types::names::SnBits;
use gtpu::{Kind, LONG_PDCP_PDU_NUMBER, NR_RAN_CONTAINER, PDCP_PDU_NUMBER, Packet};
use nr_user_plane::frames::Frame;
use nr_user_plane::ranges::Ranges;
use pdcp::pdu::{PACKET_LIMIT, Pdu};

/// Whether the packet is of this kind and has no optional field.
fn is_bare(packet: &Packet, kind: Kind) -> bool
    ensures { IsTrue result ↔ IsBare kind (view packet.now) }
{
    packet.kind == kind && packet.seq.is_none() && packet.npdu.is_none() && packet.first == 0
}

/// Whether a packet of this size may stand on a link.
fn is_sized(packet: &[u8]) -> bool
    ensures { IsTrue result ↔ IsSized packet.now }
{
    !packet.is_empty() && packet.len() <= PACKET_LIMIT
}

/// The content of the one extension header of a G-PDU with no other optional field, where it is of this type.
fn sole_content<'a>(packet: &Packet<'a>, code: u8) -> Option<&'a [u8]>
    requires { IsChain packet.now.first packet.now.chain.now }
    ensures found { IfSome result (λ content. HasHeader code content.now (view packet.now)) }
    ensures none { IfNone result ((content : List ℕ) → HasHeader code content (view packet.now)
        → ⊥) }
{
    if packet.kind != Kind::GPdu || packet.seq.is_some() || packet.npdu.is_some() {
        return None;
    }
    if packet.first != code {
        return None;
    }
    let content = gtpu::extension(packet, code)?;
    if content.len() + 2 != packet.chain.len() {
        return None;
    }
    Some(content)
}

/// Whether the packet is an End Marker without flags and payload.
pub(crate) fn is_end(packet: &Packet) -> bool
    ensures { IsTrue result ↔ SaysEnd (view packet.now) }
{
    is_bare(packet, Kind::EndMarker) && packet.payload.is_empty()
}

/// The packet in a G-PDU without flags.
pub(crate) fn fresh_of<'a>(packet: &Packet<'a>) -> Option<&'a [u8]>
    ensures found { IfSome result (λ x. SaysFresh x.now (view packet.now)) }
    ensures none { IfNone result ((x : List ℕ) → SaysFresh x (view packet.now) → ⊥) }
{
    if is_bare(packet, Kind::GPdu) && is_sized(packet.payload) {
        Some(packet.payload)
    } else {
        None
    }
}

/// Reads a PDCP PDU, as it stands on a radio, whose packet or report has 1 to 2,048 octets.
pub fn read_radio(sn: SnBits, octets: &[u8]) -> Option<Pdu<'_>>
    ensures found { IfSome result (λ pdu. CarriesPdu sn (content_of pdu) octets.now) }
    ensures none { IfNone result ((content : Content) → CarriesPdu sn content octets.now → ⊥) }
{
    let Ok(pdu) = pdcp::pdu::read_pdu(sn, octets) else {
        return None;
    };
    let counted = match pdu {
        Pdu::Packet { packet, .. } => packet,
        Pdu::Report { .. } => octets,
    };
    if is_sized(counted) { Some(pdu) } else { None }
}

/// The PDCP PDU in a G-PDU without flags.
pub(crate) fn pdu_of<'a>(sn: SnBits, packet: &Packet<'a>) -> Option<Pdu<'a>>
    ensures found { IfSome result (λ pdu. IsBare GPdu (view packet.now)
        × CarriesPdu sn (content_of pdu) packet.now.payload.now) }
    ensures none { IfNone result ((content : Content) → IsBare GPdu (view packet.now)
        → CarriesPdu sn content packet.now.payload.now → ⊥) }
{
    if !is_bare(packet, Kind::GPdu) {
        return None;
    }
    read_radio(sn, packet.payload)
}

/// The NR-U frame in a G-PDU with one NR RAN Container.
fn frame_of(packet: &Packet) -> Option<Frame>
    requires { IsChain packet.now.first packet.now.chain.now }
    ensures found { IfSome result (λ frame. HasFrame frame (view packet.now)) }
    ensures none { IfNone result ((frame : FrameValue) → HasFrame frame (view packet.now) → ⊥) }
{
    let content = sole_content(packet, NR_RAN_CONTAINER)?;
    nr_user_plane::frames::decode(content).ok()
}

/// The PDCP sequence number and the packet in a G-PDU with one header of that number.
pub(crate) fn numbered_of<'a>(sn: SnBits, packet: &Packet<'a>) -> Option<(u32, &'a [u8])>
    requires { IsChain packet.now.first packet.now.chain.now }
    ensures found { IfSome result (λ x. SaysNumbered sn x.0 x.1.now (view packet.now)) }
    ensures none { IfNone result ((number : ℕ) (x : List ℕ)
        → SaysNumbered sn number x (view packet.now) → ⊥) }
{
    let Some(number) = number_of(sn, packet) else {
        return None;
    };
    if is_sized(packet.payload) {
        Some((number, packet.payload))
    } else {
        None
    }
}

/// The number in the one header of that number.
fn number_of(sn: SnBits, packet: &Packet) -> Option<u32>
    requires { IsChain packet.now.first packet.now.chain.now }
    ensures found { IfSome result (λ number. HasNumber sn number (view packet.now)) }
    ensures none { IfNone result ((number : ℕ) → HasNumber sn number (view packet.now) → ⊥) }
{
    match sn {
        SnBits::Len12 => match sole_content(packet, PDCP_PDU_NUMBER)? {
            [high, low] => Some(u32::from_be_bytes([0, 0, high & 0x0f, *low])),
            _ => unreachable!(),
        },
        SnBits::Len18 => match sole_content(packet, LONG_PDCP_PDU_NUMBER)? {
            [high, middle, low, ..] => Some(u32::from_be_bytes([0, high & 0x03, *middle, *low])),
            _ => unreachable!(),
        },
    }
}

/// The NR-U data frame of a packet: whether it polls, whether it restarts, and its number.
pub(crate) fn data_of(packet: &Packet) -> Option<(bool, bool, u32)>
    requires { IsChain packet.now.first packet.now.chain.now }
    ensures found { IfSome result (λ x. HasFrame (Data x.0 x.1 x.2) (view packet.now)) }
    ensures none { IfNone result ((poll restart : Bool) (number : ℕ)
        → HasFrame (Data poll restart number) (view packet.now) → ⊥) }
{
    match frame_of(packet) {
        Some(Frame::Data { poll, restart, sn }) => Some((poll, restart, sn)),
        Some(Frame::Status { .. }) => None,
        None => None,
    }
}

/// The delivery status of a packet without payload: the desired buffer size, the lost ranges and the delivered number.
pub(crate) fn status_of(packet: &Packet) -> Option<(u32, Ranges, Option<u32>)>
    requires { IsChain packet.now.first packet.now.chain.now }
    ensures found { IfSome result (λ x. HasFrame (Status x.0 x.1 x.2) (view packet.now)
        × (packet.now.payload.now ≡ [])) }
    ensures none { IfNone result ((room : ℕ) (lost : List (ℕ × ℕ)) (delivered : Option ℕ)
        → HasFrame (Status room lost delivered) (view packet.now) → packet.now.payload.now ≡ []
        → ⊥) }
{
    if !packet.payload.is_empty() {
        return None;
    }
    match frame_of(packet) {
        Some(
            Frame::Status {
                room,
                lost,
                delivered,
            },
        ) => Some((room, lost, delivered)),
        Some(Frame::Data { .. }) => None,
        None => None,
    }
}
