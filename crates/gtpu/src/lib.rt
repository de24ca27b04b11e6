//! GTP-U packets (TS 29.281, 5.1 and 5.2), both ways: five message types, the optional fields and extension headers.
#![tactic(auto)]

mod headers;
pub mod laws;

ghost use Rattle.std.specs.Prelude.{◌≡◌, ◌≢◌, ◌<◌, ◌≤◌, ◌⊎◌, List, length, OnOk, IfOk, IfErr, IsOkAnd, IfSome, IfNone};
ghost use Rattle.std.specs.Option.{option_copied};
ghost use Rattle.gtpu.specs.Headers.{ExtensionHeader, IsChain, AreHeaders, content_of};
ghost use Rattle.gtpu.specs.Packets.{GtpuPacket, Gtpu, view, kind_code, flags_of, fields_of, body_of, gtpu_octets};
ghost use Rattle.gtpu.specs.Refusals.{IsRefusal};

use gnb_types::octets::{Memory, Octets};
pub use headers::{LONG_PDCP_PDU_NUMBER, NR_RAN_CONTAINER, PDCP_PDU_NUMBER};
use std::alloc::Global;
use thiserror::Error;

/// The message types that are read and written (6.1).
#[derive(Clone, Copy, Debug, PartialEq, Eq)]
pub enum Kind {
    EchoRequest = 1,
    EchoResponse = 2,
    ErrorIndication = 26,
    EndMarker = 254,
    GPdu = 255,
}

/// Why octets are no packet: the first reason that applies, in the order of [`decode`].
#[derive(Clone, Copy, Debug, PartialEq, Eq, Error)]
pub enum GtpuError {
    #[error("the version or the protocol type is not 1")]
    Version,
    #[error("no known message type")]
    Kind,
    #[error("more octets than the length says, or too few for the optional fields")]
    Length,
    #[error("fewer octets than the length says")]
    Truncated,
    #[error("an extension header with a wrong length")]
    ExtLength,
    #[error("an unknown extension header that has to be understood")]
    ExtRequired,
}

/// A packet, whose extension headers and payload lie in the octets that it was read from.
#[derive(Clone, Copy, Debug, PartialEq, Eq)]
pub struct Packet<'a> {
    pub kind: Kind,
    /// The tunnel endpoint identifier.
    pub teid: u32,
    pub seq: Option<u16>,
    /// The N-PDU number.
    pub npdu: Option<u8>,
    /// The type of the first extension header, 0 where there is none.
    pub first: u8,
    /// The octets of the extension headers.
    pub chain: &'a [u8],
    pub payload: &'a [u8],
}

/// Version 1 and protocol type 1 (GTP), in the upper half of the first octet.
const VERSION: u8 = 0b0011;

/// The most octets that the length can count.
pub const LENGTH_LIMIT: usize = 65_535;

/// The flags of the first octet: an extension header, a sequence number, an N-PDU number.
const E: u8 = 0b100;

const S: u8 = 0b010;

const PN: u8 = 0b001;

fn kind_of(code: u8) -> Option<Kind>
    ensures found { IfSome result (λ kind. code ≡ kind_code kind) }
    ensures none { IfNone result ((kind : Kind) → code ≢ kind_code kind) }
{
    match code {
        1 => Some(Kind::EchoRequest),
        2 => Some(Kind::EchoResponse),
        26 => Some(Kind::ErrorIndication),
        254 => Some(Kind::EndMarker),
        255 => Some(Kind::GPdu),
        _ => None,
    }
}

fn code_of(kind: Kind) -> u8
    ensures { result ≡ kind_code kind }
{
    kind as u8
}

/// Whether there are as many octets as the length says.
fn check_length(octets: usize, stated: usize) -> Result<(), GtpuError>
    ensures ok { OnOk result (octets ≡ stated) }
    ensures err { IfErr result (λ e. ((octets < stated) × (e ≡ GtpuError.Truncated))
        ⊎ ((stated < octets) × (e ≡ GtpuError.Length))) }
{
    if octets < stated {
        return Err(GtpuError::Truncated);
    }
    if octets > stated {
        return Err(GtpuError::Length);
    }
    Ok(())
}

/// Reads the octets of one packet.
fn read(bytes: &[u8]) -> Result<Packet<'_>, GtpuError>
    ensures found { IfOk result (λ p. Gtpu (view p) bytes.now) }
    ensures refused { IfErr result (λ e. IsRefusal e bytes.now) }
{
    let [flags, code, l0, l1, t0, t1, t2, t3, body @ ..] = bytes else {
        return Err(GtpuError::Truncated);
    };
    if flags >> 4 != VERSION {
        return Err(GtpuError::Version);
    }
    let Some(kind) = kind_of(*code) else {
        return Err(GtpuError::Kind);
    };
    let stated = usize::from(u16::from_be_bytes([*l0, *l1]));
    check_length(body.len(), stated)?;
    let teid = u32::from_be_bytes([*t0, *t1, *t2, *t3]);
    if flags & (E | S | PN) == 0 {
        return Ok(Packet {
            kind,
            teid,
            seq: None,
            npdu: None,
            first: 0,
            chain: &[],
            payload: body,
        });
    }
    let [s0, s1, number, next, rest @ ..] = body else {
        return Err(GtpuError::Length);
    };
    let first = if flags & E != 0 { *next } else { 0 };
    let (chain, payload) = headers::split_chain(first, rest)?;
    Ok(Packet {
        kind,
        teid,
        seq: (flags & S != 0).then_some(u16::from_be_bytes([*s0, *s1])),
        npdu: (flags & PN != 0).then_some(*number),
        first,
        chain,
        payload,
    })
}

/// Reads the octets of one packet, all of them. It takes no memory.
///
/// Of several reasons to refuse them the first of this order is reported: fewer than 8 octets (`Truncated`), another version
/// (`Version`) or message type (`Kind`), fewer octets than the length says (`Truncated`), more of them, or a length
/// below 4 with a flag (`Length`), and then for each extension header in turn `ExtRequired` and `ExtLength`.
pub fn decode(bytes: &[u8]) -> Result<Packet<'_>, GtpuError>
    // What is read is a packet of these octets.
    ensures found { IfOk result (λ p. Gtpu (view p) bytes.now) }
    // It may be given to `extension` and `encode`.
    ensures chain { IfOk result (λ p. IsChain p.first p.chain.now) }
    ensures counted { IfOk result (λ p. length (body_of (view p)) ≤ LENGTH_LIMIT) }
    // A packet of these octets is read.
    ensures only { (p : GtpuPacket) → Gtpu p bytes.now → IsOkAnd result (λ q. view q ≡ p) }
    ensures refused { IfErr result (λ e. IsRefusal e bytes.now) }
    // It is refused for each reason for which it should be.
    ensures all { (e : GtpuError) → IsRefusal e bytes.now → result ≡ Err e }
{
    read(bytes)
}

/// The first octet, with a flag for each optional field that is used.
fn first_octet(p: &Packet) -> u8
    ensures { result ≡ flags_of (view p.now) }
{
    let e = if p.first == 0 { 0 } else { E };
    let s = if p.seq.is_some() { S } else { 0 };
    let pn = if p.npdu.is_some() { PN } else { 0 };
    (VERSION << 4) + e + s + pn
}

/// The four octets before the extension headers, with 0 in unused fields.
fn optional_fields(p: &Packet) -> [u8; 4]
    ensures { result ≡ fields_of (view p.now) }
{
    let [s0, s1] = p.seq.unwrap_or(0).to_be_bytes();
    [s0, s1, p.npdu.unwrap_or(0), p.first]
}

/// The octets of a packet, with 0 in spare bits and unused fields.
pub fn encode(alloc: Global, p: &Packet) -> Result<Octets, Memory>
    requires chain { IsChain p.now.first p.now.chain.now }
    requires counted { length (body_of (view p.now)) ≤ LENGTH_LIMIT }
    ensures { IfOk result (λ octets. octets ≡ gtpu_octets (view p.now)) }
{
    let flags = first_octet(p);
    let fields = optional_fields(p);
    let optional: &[u8] = if flags & (E | S | PN) == 0 {
        &[]
    } else {
        &fields
    };
    let length = optional.len() + p.chain.len() + p.payload.len();
    let mut octets = Octets::new(alloc);
    octets.append(&[flags, code_of(p.kind)])?;
    octets.append(&(length as u16).to_be_bytes())?;
    octets.append(&p.teid.to_be_bytes())?;
    octets.append(optional)?;
    octets.append(p.chain)?;
    octets.append(p.payload)?;
    Ok(octets)
}

/// The content of the first extension header of a type, without its length and the type of the next one.
pub fn extension<'a>(p: &Packet<'a>, code: u8) -> Option<&'a [u8]>
    requires { IsChain p.now.first p.now.chain.now }
    // The headers of a chain are determined, so these are they.
    ensures { (hs : List ExtensionHeader) → AreHeaders hs p.now.first p.now.chain.now
        → option_copied result ≡ content_of code hs }
{
    headers::find_content(p.first, p.chain, code)
}
