//! PDCP PDUs as octets (TS 38.323, 6.2).

ghost use Rattle.std.specs.Prelude.{◌≡◌, ◌<◌, ◌≤◌, length, false, IsTrue, IfOk, IfErr, IsOkAnd};
ghost use Rattle.pdcp.specs.Pdus.{Content, content_of, Pdcp, IsRefusal, is_data, radio_data, octet_of, report_octets};
ghost use Rattle.gnb_types.specs.Refusals.{first_reason};
ghost use Rattle.pdcp.specs.Tests.{tests};
ghost use Rattle.pdcp.specs.declared.pdu.PduError.{PduError};

use gnb_types::bits::Bits;
use gnb_types::names::SnBits;
use gnb_types::octets::{Memory, Octets};
use std::alloc::Global;
use thiserror::Error;

/// The most octets of a packet on a bearer.
pub const PACKET_LIMIT: usize = 2_048;

/// What a PDU says, over the octets that it was read from.
#[derive(Clone, Copy, Debug, PartialEq, Eq)]
pub enum Pdu<'a> {
    /// A data PDU: the number, below the sequence space, and the packet, of at least one octet.
    Packet { sn: u32, packet: &'a [u8] },
    /// A status report: the first missing COUNT, and a bitmap whose bit k, from 1, is the COUNT `fmc + k`.
    Report { fmc: u32, bits: &'a [u8] },
}

/// Why octets are no PDU.
#[derive(Clone, Copy, Debug, PartialEq, Eq, Error)]
pub enum PduError {
    #[error("the PDU ends too soon")]
    Truncated,
    #[error("the control PDU is no status report")]
    ControlKind,
}

/// Reads a PDU. Reserved bits are not evaluated.
pub fn read_pdu(sn: SnBits, bytes: &[u8]) -> Result<Pdu<'_>, PduError>
    ensures found { IfOk result (λ pdu. Pdcp sn (content_of pdu) bytes.now) }
    ensures only { (content : Content) → Pdcp sn content bytes.now
        → IsOkAnd result (λ pdu. content_of pdu ≡ content) }
    ensures refused { IfErr result (λ reason. IsRefusal sn reason bytes.now) }
    // It is refused for each reason for which it should be.
    ensures all { (reason : PduError) → IsRefusal sn reason bytes.now → result ≡ Err reason }
{
    read(sn, bytes)
}

fn read(sn: SnBits, bytes: &[u8]) -> Result<Pdu<'_>, PduError>
    ensures found { IfOk result (λ pdu. Pdcp sn (content_of pdu) bytes.now) }
    ensures only { (content : Content) → Pdcp sn content bytes.now
        → IsOkAnd result (λ pdu. content_of pdu ≡ content) }
    ensures refused { IfErr result (λ reason. first_reason (tests sn bytes.now) ≡ Some reason) }
{
    match bytes {
        [first, ..] if first & 0x80 != 0 => read_data(sn, bytes),
        _ => read_report(sn, bytes),
    }
}

/// Reads a data PDU, whose first bit is 1.
fn read_data(sn: SnBits, bytes: &[u8]) -> Result<Pdu<'_>, PduError>
    requires { IsTrue (is_data bytes.now) }
    ensures found { IfOk result (λ pdu. Pdcp sn (content_of pdu) bytes.now) }
    ensures only { (content : Content) → Pdcp sn content bytes.now
        → IsOkAnd result (λ pdu. content_of pdu ≡ content) }
    ensures refused { IfErr result (λ reason. first_reason (tests sn bytes.now) ≡ Some reason) }
{
    match (sn, bytes) {
        (SnBits::Len12, [high, low, packet @ ..]) if !packet.is_empty() => Ok(Pdu::Packet {
            sn: u32::from_be_bytes([0, 0, high & 0x0f, *low]),
            packet,
        }),
        (SnBits::Len18, [high, middle, low, packet @ ..]) if !packet.is_empty() => {
            Ok(Pdu::Packet {
                sn: u32::from_be_bytes([0, high & 0x03, *middle, *low]),
                packet,
            })
        }
        _ => Err(PduError::Truncated),
    }
}

/// Reads a control PDU, whose first bit is 0.
fn read_report(sn: SnBits, bytes: &[u8]) -> Result<Pdu<'_>, PduError>
    requires { is_data bytes.now ≡ false }
    ensures found { IfOk result (λ pdu. Pdcp sn (content_of pdu) bytes.now) }
    ensures only { (content : Content) → Pdcp sn content bytes.now
        → IsOkAnd result (λ pdu. content_of pdu ≡ content) }
    ensures refused { IfErr result (λ reason. first_reason (tests sn bytes.now) ≡ Some reason) }
{
    match bytes {
        [first, a, b, c, d, bits @ ..] if first & 0x70 == 0 => Ok(Pdu::Report {
            fmc: u32::from_be_bytes([*a, *b, *c, *d]),
            bits,
        }),
        [_, _, _, _, _, ..] => Err(PduError::ControlKind),
        _ => Err(PduError::Truncated),
    }
}

/// Writes a data PDU: the number is the low bits of the COUNT, and reserved bits are zeros.
#[tactic(auto, unfolding(crate::specs::Pdus::radio_data))]
pub fn write_pdu(alloc: Global, sn: SnBits, count: u32, packet: &[u8]) -> Result<Octets, Memory>
    requires least { 1 ≤ length packet.now }
    requires most { length packet.now ≤ PACKET_LIMIT }
    ensures { IfOk result (λ octets. octets ≡ radio_data sn count packet.now) }
{
    let [_, high, middle, low] = count.to_be_bytes();
    let mut octets = match sn {
        SnBits::Len12 => Octets::from_slice(alloc, &[0x80 | middle & 0x0f, low])?,
        SnBits::Len18 => Octets::from_slice(alloc, &[0x80 | high & 0x03, middle, low])?,
    };
    octets.append(packet)?;
    Ok(octets)
}

/// Writes a status report: the first missing COUNT, and a bit for each COUNT above it, true where that COUNT is stored.
pub fn write_report(alloc: Global, fmc: u32, bits: &Bits) -> Result<Octets, Memory>
    ensures { IfOk result (λ octets. octets ≡ report_octets fmc bits.now) }
{
    let [a, b, c, d] = fmc.to_be_bytes();
    let mut octets = Octets::from_slice(alloc, &[0, a, b, c, d])?;
    for eight in bits.as_slice().chunks(8) {
        octets.push(packed(eight))?;
    }
    Ok(octets)
}

/// Up to eight truth values as an octet, the first in its highest bit.
fn packed(bits: &[bool]) -> u8
    ensures { result ≡ octet_of bits.now }
{
    let mut octet = 0;
    let mut worth = 0x80;
    for bit in bits {
        if *bit {
            octet += worth;
        }
        worth /= 2;
    }
    octet
}
