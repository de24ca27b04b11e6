//! What is written on the links, with zeros in spare bits and unused fields.

ghost use Rattle.std.specs.Prelude.{◌≡◌, ◌+◌, ◌^◌, ◌<◌, ◌≤◌, false, length, IfOk};
ghost use Rattle.gtpu.specs.declared.TheConstants.{LENGTH_LIMIT};
ghost use Rattle.gtpu.specs.Headers.{IsHeader};
ghost use Rattle.gtpu.specs.Packets.{gtpu_octets};
ghost use Rattle.nr_user_plane.specs.declared.frames.Frame.TheVariants.{Status};
ghost use Rattle.nr_user_plane.specs.Frames.{FitsFrame};
ghost use Rattle.link_defs.specs.Decoding.{IsSized};
ghost use Rattle.link_defs.specs.GPdus.{plain_pdu, pdu_with};
ghost use Rattle.link_defs.specs.Links.{n3_downlink};
ghost use Rattle.link_defs.specs.Layouts as layouts;
ghost use Rattle.link_packets.specs.Parts.{header};

use gnb_types::bits::Bits;
use gnb_types::names::SnBits;
use gnb_types::octets::{Memory, Octets};
use gtpu::{Kind, LONG_PDCP_PDU_NUMBER, NR_RAN_CONTAINER, PDCP_PDU_NUMBER, Packet};
use nr_user_plane::frames::Frame;
use nr_user_plane::ranges::Ranges;
use std::alloc::Global;

/// The desired buffer size that a delivery status reports, in octets.
const DESIRED_BUFFER_SIZE: u32 = 65536;

/// A G-PDU without flags.
fn plain(alloc: Global, teid: u32, payload: &[u8]) -> Result<Octets, Memory>
    requires { length payload.now ≤ LENGTH_LIMIT }
    ensures { IfOk result (λ octets. octets ≡ gtpu_octets (plain_pdu teid payload.now)) }
{
    gtpu::encode(
        alloc,
        &Packet {
            kind: Kind::GPdu,
            teid,
            seq: None,
            npdu: None,
            first: 0,
            chain: &[],
            payload,
        },
    )
}

/// A G-PDU with one extension header.
fn with_header(
    alloc: Global,
    teid: u32,
    code: u8,
    content: &[u8],
    payload: &[u8],
) -> Result<Octets, Memory>
    requires header { IsHeader (header code content.now) }
    requires short { length content.now ≤ 1000 }
    requires counted { length payload.now ≤ 60000 }
    ensures { IfOk result (λ octets. octets ≡ gtpu_octets (pdu_with teid (header code content.now) payload.now)) }
{
    let mut chain = Octets::new(alloc);
    chain.push(((content.len() + 2) / 4) as u8)?;
    chain.append(content)?;
    chain.push(0)?;
    gtpu::encode(
        alloc,
        &Packet {
            kind: Kind::GPdu,
            teid,
            seq: None,
            npdu: None,
            first: code,
            chain: chain.as_slice(),
            payload,
        },
    )
}

/// A G-PDU with one NR RAN Container around this frame.
fn with_frame(alloc: Global, teid: u32, frame: &Frame, payload: &[u8]) -> Result<Octets, Memory>
    requires fits { FitsFrame frame.now }
    requires counted { length payload.now ≤ 60000 }
    ensures { IfOk result (λ octets. octets ≡ gtpu_octets (pdu_with teid (layouts.frame_header frame.now) payload.now)) }
{
    let content = nr_user_plane::frames::encode(alloc, frame)?;
    with_header(alloc, teid, NR_RAN_CONTAINER, content.as_slice(), payload)
}

/// A packet on N3 downlink.
pub fn write_n3(alloc: Global, teid: u32, packet: &[u8]) -> Result<Octets, Memory>
    requires { IsSized packet.now }
    ensures { IfOk result (λ octets. octets ≡ n3_downlink teid packet.now) }
{
    plain(alloc, teid, packet)
}

/// A packet on F1-U downlink: a PDCP data PDU of this COUNT after an NR-U number.
#[tactic(auto, unfolding(link_defs::specs::Layouts::f1u_downlink_packet))]
pub fn write_f1u_downlink_packet(
    alloc: Global,
    sn: SnBits,
    teid: u32,
    restart: bool,
    number: u32,
    count: u32,
    packet: &[u8],
) -> Result<Octets, Memory>
    requires sized { IsSized packet.now }
    requires number { number < 2 ^ 24 }
    ensures { IfOk result (λ octets. octets ≡ layouts.f1u_downlink_packet restart sn teid number count packet.now) }
{
    let pdu = pdcp::pdu::write_pdu(alloc, sn, count, packet)?;
    let frame = Frame::Data {
        poll: false,
        restart,
        sn: number,
    };
    with_frame(alloc, teid, &frame, pdu.as_slice())
}

/// A status report on F1-U downlink, after an NR-U number.
#[tactic(auto, unfolding(link_defs::specs::Layouts::f1u_downlink_report))]
pub fn write_f1u_downlink_report(
    alloc: Global,
    teid: u32,
    number: u32,
    fmc: u32,
    bits: &Bits,
) -> Result<Octets, Memory>
    requires few { length bits.now ≤ 4096 }
    requires number { number < 2 ^ 24 }
    ensures { IfOk result (λ octets. octets ≡ layouts.f1u_downlink_report teid number fmc bits.now) }
{
    let pdu = pdcp::pdu::write_report(alloc, fmc, bits)?;
    let frame = Frame::Data {
        poll: false,
        restart: false,
        sn: number,
    };
    with_frame(alloc, teid, &frame, pdu.as_slice())
}

/// A polling frame on F1-U downlink.
#[tactic(auto, unfolding(link_defs::specs::Layouts::f1u_downlink_poll))]
pub fn write_f1u_downlink_poll(alloc: Global, teid: u32, number: u32) -> Result<Octets, Memory>
    requires { number < 2 ^ 24 }
    ensures { IfOk result (λ octets. octets ≡ layouts.f1u_downlink_poll teid number) }
{
    let frame = Frame::Data {
        poll: true,
        restart: false,
        sn: number,
    };
    with_frame(alloc, teid, &frame, &[])
}

/// A PDCP PDU on F1-U uplink, as it came from the radio.
#[tactic(auto, unfolding(link_defs::specs::Layouts::f1u_uplink_pdu))]
pub fn write_f1u_uplink_pdu(alloc: Global, teid: u32, pdu: &[u8]) -> Result<Octets, Memory>
    requires { length pdu.now ≤ LENGTH_LIMIT }
    ensures { IfOk result (λ octets. octets ≡ layouts.f1u_uplink_pdu teid pdu.now) }
{
    plain(alloc, teid, pdu)
}

/// A delivery status on F1-U uplink: the lost NR-U numbers, and the delivered PDCP number.
#[tactic(auto, unfolding(link_defs::specs::Layouts::delivery_status))]
pub fn write_delivery_status(
    alloc: Global,
    teid: u32,
    lost: Ranges,
    delivered: Option<u32>,
) -> Result<Octets, Memory>
    requires { FitsFrame (Status layouts.desired_buffer_size lost delivered) }
    ensures { IfOk result (λ octets. octets ≡ layouts.delivery_status teid lost delivered) }
{
    let frame = Frame::Status {
        room: DESIRED_BUFFER_SIZE,
        lost,
        delivered,
    };
    with_frame(alloc, teid, &frame, &[])
}

/// A packet with its PDCP number on a forwarding tunnel: numbered on the way down, late on the way up.
#[tactic(auto, unfolding(link_defs::specs::Layouts::forwarded_numbered))]
pub fn write_forwarded_numbered(
    alloc: Global,
    sn: SnBits,
    teid: u32,
    count: u32,
    packet: &[u8],
) -> Result<Octets, Memory>
    requires { IsSized packet.now }
    ensures { IfOk result (λ octets. octets ≡ layouts.forwarded_numbered sn teid count packet.now) }
{
    let [_, high, middle, low] = count.to_be_bytes();
    match sn {
        SnBits::Len12 => with_header(alloc, teid, PDCP_PDU_NUMBER, &[middle & 0x0f, low], packet),
        SnBits::Len18 => with_header(
            alloc,
            teid,
            LONG_PDCP_PDU_NUMBER,
            &[high & 0x03, middle, low, 0, 0, 0],
            packet,
        ),
    }
}

/// A packet without a number on a forwarding tunnel.
#[tactic(auto, unfolding(link_defs::specs::Layouts::forwarded_fresh))]
pub fn write_forwarded_fresh(alloc: Global, teid: u32, packet: &[u8]) -> Result<Octets, Memory>
    requires { IsSized packet.now }
    ensures { IfOk result (λ octets. octets ≡ layouts.forwarded_fresh teid packet.now) }
{
    plain(alloc, teid, packet)
}

/// An End Marker.
#[tactic(auto, unfolding(link_defs::specs::Layouts::end_marker))]
pub fn write_end_marker(alloc: Global, teid: u32) -> Result<Octets, Memory>
    ensures { IfOk result (λ octets. octets ≡ layouts.end_marker teid) }
{
    gtpu::encode(
        alloc,
        &Packet {
            kind: Kind::EndMarker,
            teid,
            seq: None,
            npdu: None,
            first: 0,
            chain: &[],
            payload: &[],
        },
    )
}
