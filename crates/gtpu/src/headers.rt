//! One extension header after the other (TS 29.281, 5.2.1).

ghost use Rattle.std.specs.Prelude.{◌≡◌, ◌++◌, ◌<◌, List, IfOk, IfErr};
ghost use Rattle.std.specs.Option.{option_copied};
ghost use Rattle.gtpu.specs.Headers.{ExtensionHeader, SplitsOff, IsChain, AreHeaders, content_of, is_required, may_have};
ghost use Rattle.gnb_types.specs.Refusals.{IsFirst};
ghost use Rattle.gtpu.specs.Refusals.{header_refusals, faults_at};

use crate::GtpuError;

/// NR RAN Container.
pub const NR_RAN_CONTAINER: u8 = 0x84;
/// PDCP PDU Number, of two octets.
pub const PDCP_PDU_NUMBER: u8 = 0xC0;
/// Long PDCP PDU Number, of three octets and three more.
pub const LONG_PDCP_PDU_NUMBER: u8 = 0x82;

/// What the header at the front of some octets says: its content, the type of the next one, and the octets after it.
#[derive(Drop)]
struct Split<'a> {
    content: &'a [u8],
    next: u8,
    rest: &'a [u8],
}

/// Whether a packet with a header of this type is refused where the type isn't known.
fn must_be_known(code: u8) -> bool
    ensures { result ≡ is_required code }
{
    code >= 0x80
        && !matches!(
            code,
            NR_RAN_CONTAINER | PDCP_PDU_NUMBER | LONG_PDCP_PDU_NUMBER
        )
}

/// Whether a header of this type may have this length, in units of 4 octets.
fn may_have_length(code: u8, units: u8) -> bool
    ensures { result ≡ may_have code units }
{
    match code {
        PDCP_PDU_NUMBER => units == 1,
        LONG_PDCP_PDU_NUMBER => units == 2,
        _ => units > 0,
    }
}

/// Takes the header of this type off the front.
fn split_header(code: u8, octets: &[u8]) -> Result<Split<'_>, GtpuError>
    requires { 0 < code }
    ensures found { IfOk result (λ s. SplitsOff code octets.now s.content.now s.next s.rest.now) }
    ensures refused { IfErr result (IsFirst (faults_at code octets.now)) }
{
    if must_be_known(code) {
        return Err(GtpuError::ExtRequired);
    }
    let [units, ..] = octets else {
        return Err(GtpuError::ExtLength);
    };
    let length = 4 * usize::from(*units);
    if !may_have_length(code, *units) || octets.len() < length {
        return Err(GtpuError::ExtLength);
    }
    let (header, rest) = octets.split_at(length);
    Ok(Split {
        content: &header[1..length - 1],
        next: header[length - 1],
        rest,
    })
}

/// Splits octets into a chain of headers, of which the first has this type, and what follows it.
pub(crate) fn split_chain(first: u8, octets: &[u8]) -> Result<(&[u8], &[u8]), GtpuError>
    ensures found { IfOk result (λ s. IsChain first s.0.now × (octets.now ≡ s.0.now ++ s.1.now)) }
    ensures refused { IfErr result (IsFirst (header_refusals first octets.now)) }
{
    let mut code = first;
    let mut rest = octets;
    while code != 0 {
        let split = split_header(code, rest)?;
        code = split.next;
        rest = split.rest;
    }
    Ok(octets.split_at(octets.len() - rest.len()))
}

/// The content of the first header of a type in a valid chain.
pub(crate) fn find_content(first: u8, chain: &[u8], code: u8) -> Option<&[u8]>
    requires { IsChain first chain.now }
    ensures { (hs : List ExtensionHeader) → AreHeaders hs first chain.now
        → option_copied result ≡ content_of code hs }
{
    let mut next = first;
    let mut rest = chain;
    while next != 0 {
        let Ok(split) = split_header(next, rest) else {
            unreachable!()
        };
        if next == code {
            return Some(split.content);
        }
        next = split.next;
        rest = split.rest;
    }
    None
}
