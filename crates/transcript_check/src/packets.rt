//! What the octets of an item say on its link, of which a transcript shows a tunnel's end alone (TS 38.401, 6.1.2).

ghost use Rattle.std.specs.Prelude.{◌≡◌, ◌↔◌, None, Some, IsTrue, IfSome, IsSomeAnd, MatchOption};
ghost use Rattle.link_defs.specs.Decoding.{Item as Says, f1u_downlink, f1u_uplink, forwarding_down, DecodesOn};
ghost use Rattle.pdcp.specs.Pdus.{content_of};
ghost use Rattle.link_packets.specs.Items.{forwarded_item, uplink_item};
ghost use Rattle.transcript_defs.specs.Packets.{IsOnRadio, FitsDirection, IsAtCuUp, LaidOut, packet_in, number_in, packet_of as carried, number_of as told};
ghost use Rattle.transcript_check.specs.Readings.{says_of};

use gnb_types::names::{Dir, NodeId, SnBits};
use link_packets::{
    F1uDownlink, F1uUplink, Forwarded, read_f1u_downlink, read_f1u_uplink, read_forwarding_down,
    read_radio,
};
use pdcp::pdu::Pdu;
use scenario_text::line::Link;

/// What the octets of an item say.
#[derive(Drop)]
pub enum Reading<'a> {
    /// A packet of F1-U downlink.
    AtDu(F1uDownlink<'a>),
    /// A packet of N3 or of forwarding, or an End Marker.
    Forwarded(Forwarded<'a>),
    /// A packet of F1-U uplink.
    Uplink(F1uUplink<'a>),
    /// A PDCP PDU and its octets.
    OnRadio { content: Pdu<'a>, octets: &'a [u8] },
}

impl<'a> Reading<'a> {
    /// The packet that is carried.
    pub fn packet(&self) -> Option<&'a [u8]>
        ensures { MatchOption result (packet_in (says_of self.now) ≡ None) (λ p. packet_in (says_of self.now) ≡ Some p.now) }
    {
        match self {
            Reading::AtDu(F1uDownlink::Pdu { content, .. }) => packet_of(content),
            Reading::AtDu(F1uDownlink::Poll { .. }) => None,
            Reading::Forwarded(Forwarded::Fresh(packet)) => Some(packet),
            Reading::Forwarded(Forwarded::Numbered { packet, .. }) => Some(packet),
            Reading::Forwarded(Forwarded::End) => None,
            Reading::Uplink(F1uUplink::Pdu { content, .. }) => packet_of(content),
            Reading::Uplink(F1uUplink::Status { .. }) => None,
            Reading::Uplink(F1uUplink::End) => None,
            Reading::OnRadio { content, .. } => packet_of(content),
        }
    }

    /// The PDCP number that is told.
    pub fn number(&self) -> Option<u32>
        ensures { result ≡ number_in (says_of self.now) }
    {
        match self {
            Reading::AtDu(F1uDownlink::Pdu { content, .. }) => number_of(content),
            Reading::AtDu(F1uDownlink::Poll { .. }) => None,
            Reading::Forwarded(Forwarded::Fresh(_)) => None,
            Reading::Forwarded(Forwarded::Numbered { number, .. }) => Some(*number),
            Reading::Forwarded(Forwarded::End) => None,
            Reading::Uplink(F1uUplink::Pdu { content, .. }) => number_of(content),
            Reading::Uplink(F1uUplink::Status { delivered, .. }) => *delivered,
            Reading::Uplink(F1uUplink::End) => None,
            Reading::OnRadio { content, .. } => number_of(content),
        }
    }
}

fn packet_of<'a>(content: &Pdu<'a>) -> Option<&'a [u8]>
    ensures { MatchOption result (carried (content_of content.now) ≡ None) (λ p. carried (content_of content.now) ≡ Some p.now) }
{
    match content {
        Pdu::Packet { packet, .. } => Some(packet),
        Pdu::Report { .. } => None,
    }
}

fn number_of(content: &Pdu) -> Option<u32>
    ensures { result ≡ told (content_of content.now) }
{
    match content {
        Pdu::Packet { sn, .. } => Some(*sn),
        Pdu::Report { .. } => None,
    }
}

/// Reads the octets of an item on its link; None where they have no layout there.
pub fn read_put<'a>(link: Link, dir: Dir, sn: SnBits, octets: &'a [u8]) -> Option<Reading<'a>>
    ensures found { IfSome result (λ x. LaidOut link dir sn (says_of x) octets.now) }
    ensures only { (says : Says) → LaidOut link dir sn says octets.now
        → IsSomeAnd result (λ x. says_of x ≡ says) }
{
    match link {
        Link::Radio { .. } => on_radio(sn, octets),
        Link::Tunnel {
            end: NodeId::Du(_, _),
            ..
        } => at_du(sn, octets),
        Link::Tunnel {
            end: NodeId::CuUp(_, _),
            ..
        } => at_cu_up(dir, sn, octets),
        Link::Tunnel { .. } => None,
    }
}

fn on_radio(sn: SnBits, octets: &[u8]) -> Option<Reading<'_>>
    ensures found { IfSome result (λ x. IsOnRadio sn (says_of x) octets.now) }
    ensures only { (says : Says) → IsOnRadio sn says octets.now
        → IsSomeAnd result (λ x. says_of x ≡ says) }
{
    match read_radio(sn, octets) {
        Some(content) => Some(Reading::OnRadio { content, octets }),
        None => None,
    }
}

fn at_du(sn: SnBits, octets: &[u8]) -> Option<Reading<'_>>
    ensures found { IfSome result (λ x. DecodesOn f1u_downlink sn (says_of x) octets.now) }
    ensures only { (says : Says) → DecodesOn f1u_downlink sn says octets.now
        → IsSomeAnd result (λ x. says_of x ≡ says) }
{
    match read_f1u_downlink(sn, octets) {
        Some(x) => Some(Reading::AtDu(x)),
        None => None,
    }
}

/// At a CU-UP the direction decides what a G-PDU without flags is.
fn at_cu_up(dir: Dir, sn: SnBits, octets: &[u8]) -> Option<Reading<'_>>
    ensures found { IfSome result (λ x. FitsDirection (says_of x) dir
        × IsAtCuUp sn (says_of x) octets.now) }
    ensures only { (says : Says) → FitsDirection says dir → IsAtCuUp sn says octets.now
        → IsSomeAnd result (λ x. says_of x ≡ says) }
{
    match forwarded(dir, sn, octets) {
        Some(x) => Some(Reading::Forwarded(x)),
        None => match uplink(dir, sn, octets) {
            Some(x) => Some(Reading::Uplink(x)),
            None => None,
        },
    }
}

/// A packet without a number is one of downlink.
fn is_forwarded(x: &Forwarded, dir: Dir) -> bool
    ensures { IsTrue result ↔ FitsDirection (forwarded_item x.now) dir }
{
    match x {
        Forwarded::Fresh(_) => dir == Dir::Dl,
        Forwarded::Numbered { .. } => true,
        Forwarded::End => true,
    }
}

/// A PDCP PDU is one of uplink.
fn is_uplink(x: &F1uUplink, dir: Dir) -> bool
    ensures { IsTrue result ↔ FitsDirection (uplink_item x.now) dir }
{
    match x {
        F1uUplink::Pdu { .. } => dir == Dir::Ul,
        F1uUplink::Status { .. } => true,
        F1uUplink::End => true,
    }
}

fn forwarded(dir: Dir, sn: SnBits, octets: &[u8]) -> Option<Forwarded<'_>>
    ensures found { IfSome result (λ x. FitsDirection (forwarded_item x) dir
        × DecodesOn forwarding_down sn (forwarded_item x) octets.now) }
    ensures only { (says : Says) → FitsDirection says dir
        → DecodesOn forwarding_down sn says octets.now
        → IsSomeAnd result (λ x. forwarded_item x ≡ says) }
{
    match read_forwarding_down(sn, octets) {
        Some(x) => { if is_forwarded(&x, dir) { Some(x) } else { None } }
        None => None,
    }
}

fn uplink(dir: Dir, sn: SnBits, octets: &[u8]) -> Option<F1uUplink<'_>>
    ensures found { IfSome result (λ x. FitsDirection (uplink_item x) dir
        × DecodesOn f1u_uplink sn (uplink_item x) octets.now) }
    ensures only { (says : Says) → FitsDirection says dir → DecodesOn f1u_uplink sn says octets.now
        → IsSomeAnd result (λ x. uplink_item x ≡ says) }
{
    match read_f1u_uplink(sn, octets) {
        Some(x) => { if is_uplink(&x, dir) { Some(x) } else { None } }
        None => None,
    }
}
