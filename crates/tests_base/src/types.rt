//! Vectors from outside, and each public call once.

use gnb_types::bits::Bits;
use gnb_types::hex::{HexError, hex_bytes, hex_text};
use gnb_types::items::Items;
use gnb_types::names::{BearerId, Dir, Gnb, NodeId, UeId};
use gnb_types::octets::{Memory, Octets};
use gnb_types::plans::{SnStatus, StatusList, Tunnel, TunnelList};
use gnb_types::reasons::{CauseName, DropReason, HeldReason, RefuseReason};
use std::alloc::Global;
use std::fmt::{Debug, Display};

/// RFC 4648, section 10.
const VECTORS: [(&[u8], &[u8]); 7] = [
    (b"", b""),
    (b"f", b"66"),
    (b"fo", b"666F"),
    (b"foo", b"666F6F"),
    (b"foob", b"666F6F62"),
    (b"fooba", b"666F6F6261"),
    (b"foobar", b"666F6F626172"),
];

/// Texts that stand for no bytes.
const NO_BYTES: [&[u8]; 6] = [b"6", b"666", b"6G", b"g6", b"/0", b"0x"];

/// Whether bytes have this text.
fn has_text(alloc: Global, bytes: &[u8], text: &[u8]) -> Result<bool, Memory> {
    let shown = hex_text(alloc, bytes)?;
    Ok(shown.as_slice() == text)
}

/// Whether a text stands for these bytes.
fn stands_for(alloc: Global, text: &[u8], bytes: &[u8]) -> Result<bool, HexError> {
    let read = hex_bytes(alloc, text)?;
    Ok(read.as_slice() == bytes)
}

#[test]
fn hexadecimal_text(rt: HostRuntime) {
    for &(bytes, text) in &VECTORS {
        assert!(rt; has_text(rt.alloc(), bytes, text) == Ok(true), "{bytes:?}");
        assert!(rt;
            stands_for(rt.alloc(), text, bytes) == Ok(true),
            "{bytes:?}"
        );
    }
    assert!(rt; stands_for(rt.alloc(), b"fFaA09", &[0xff, 0xaa, 0x09]) == Ok(true));
}

#[test]
fn no_hexadecimal_text(rt: HostRuntime) {
    for &text in &NO_BYTES {
        assert!(rt;
            stands_for(rt.alloc(), text, b"") == Err(HexError::NotHex),
            "{text:?}"
        );
    }
}

/// The octets 1 to 4.
fn four(alloc: Global) -> Result<Octets, Memory> {
    let mut octets = Octets::new(alloc);
    octets.push(1)?;
    octets.append(&[2, 3])?;
    octets.extend(Octets::one(alloc, 4)?)?;
    Ok(octets)
}

/// Whether these are the octets 1 to 4, by each call that looks at them.
fn is_four(octets: &Octets) -> bool {
    octets.as_slice() == [1, 2, 3, 4].as_slice()
        && octets.len() == 4
        && !octets.is_empty()
        && octets.get(3) == Some(&4)
        && octets.get(4).is_none()
}

/// Whether this is a list of these octets, as one that is made of them.
fn equals(alloc: Global, octets: &Octets, others: &[u8]) -> Result<bool, Memory> {
    let others = Octets::from_slice(alloc, others)?;
    Ok(*octets == others)
}

/// Whether it differs from a list that a vector of these octets makes.
fn differs(alloc: Global, octets: &Octets, others: &[u8]) -> Result<bool, Memory> {
    let others = Octets::from_vec(Vec::from_slice(alloc, others)?);
    Ok(*octets != others)
}

#[test]
fn a_list_is_filled(rt: HostRuntime) -> Result<(), Memory> {
    assert!(rt; Octets::new(rt.alloc()).is_empty());
    let octets = four(rt.alloc())?;
    assert!(rt; is_four(&octets));
    assert!(rt; equals(rt.alloc(), &octets, &[1, 2, 3, 4]) == Ok(true));
    assert!(rt; differs(rt.alloc(), &octets, &[1, 2, 3]) == Ok(true));
    let octets = octets.into_vec();
    assert!(rt; octets.as_slice() == [1, 2, 3, 4].as_slice());
    Ok(())
}

/// A list's octets one by one.
fn walked(alloc: Global, octets: &Octets) -> Result<Octets, Memory> {
    let mut shown = Octets::new(alloc);
    for octet in octets {
        shown.push(*octet)?;
    }
    Ok(shown)
}

/// The sum of octets.
fn sum_of(octets: Octets) -> u32 {
    let mut sum: u32 = 0;
    for octet in octets {
        sum = sum.wrapping_add(u32::from(octet));
    }
    sum
}

/// A list is copied, walked, and taken apart.
#[test]
fn a_list_is_walked(rt: HostRuntime) -> Result<(), Memory> {
    let copy = four(rt.alloc())?.clone()?;
    let shown = walked(rt.alloc(), &copy)?;
    let is_copy = shown == copy;
    drop(shown);
    let sum = sum_of(copy);
    assert!(rt; is_copy && sum == 10);
    Ok(())
}

/// Whether a value has this text.
fn is_shown(alloc: Global, value: &impl Display, text: &str) -> bool {
    match format!(in alloc; "{value}") {
        Ok(shown) => shown.as_str() == text,
        Err(_) => false,
    }
}

fn is_debugged(alloc: Global, value: &impl Debug, text: &str) -> bool {
    match format!(in alloc; "{value:?}") {
        Ok(shown) => shown.as_str() == text,
        Err(_) => false,
    }
}

#[test]
fn a_list_is_shown(rt: HostRuntime) -> Result<(), Memory> {
    let bits = Bits::one(rt.alloc(), true)?;
    assert!(rt; is_debugged(rt.alloc(), &bits, "Items { items: [true] }"));
    Ok(())
}

/// How names of a transcript read.
#[test]
fn printed_names(rt: HostRuntime) {
    let (alloc, gnb) = (rt.alloc(), Gnb::B);
    assert!(rt; is_shown(alloc, &Gnb::A, "A"));
    assert!(rt; is_shown(alloc, &UeId(16), "u16"));
    assert!(rt; is_shown(alloc, &BearerId(8), "b8"));
    assert!(rt; is_shown(alloc, &NodeId::CuCp(gnb), "B.cp"));
    assert!(rt; is_shown(alloc, &NodeId::CuUp(gnb, 1), "B.up1"));
    assert!(rt; is_shown(alloc, &NodeId::Du(gnb, 2), "B.du2"));
    assert!(rt; is_shown(alloc, &NodeId::Core, "core"));
    assert!(rt; is_shown(alloc, &NodeId::Ue(1), "u1"));
    assert!(rt; is_shown(alloc, &Dir::Dl, "dl"));
    assert!(rt; is_shown(alloc, &Dir::Ul, "ul"));
}

/// How reasons of a transcript read.
#[test]
fn printed_reasons(rt: HostRuntime) {
    let alloc = rt.alloc();
    assert!(rt; is_shown(alloc, &DropReason::Undecodable, "Undecodable"));
    assert!(rt; is_shown(alloc, &DropReason::NoContext, "NoContext"));
    assert!(rt; is_shown(alloc, &HeldReason::NoStatus, "NoStatus"));
    assert!(rt; is_shown(alloc, &HeldReason::Early, "Early"));
    assert!(rt; is_shown(alloc, &CauseName::Quota, "quota"));
    assert!(rt; is_shown(alloc, &CauseName::Timeout, "timeout"));
    assert!(rt; is_shown(alloc, &RefuseReason::NotStarted, "NotStarted"));
    assert!(rt; is_shown(alloc, &RefuseReason::NoUe, "NoUe"));
}

/// A status with one COUNT that was received after the first that is missing.
fn status(alloc: Global) -> Result<SnStatus, Memory> {
    let received = Bits::one(alloc, true)?;
    Ok(SnStatus {
        bearer: BearerId(1),
        dl_next: 5,
        ul_first: 3,
        ul_received: Some(received),
    })
}

/// Statuses are compared.
#[test]
fn statuses(rt: HostRuntime) -> Result<(), Memory> {
    let statuses = StatusList::one(rt.alloc(), status(rt.alloc())?)?;
    let others = StatusList::one(rt.alloc(), status(rt.alloc())?)?;
    assert!(rt; statuses == others);
    Ok(())
}

#[test]
fn tunnels(rt: HostRuntime) -> Result<(), Memory> {
    let tunnel = Tunnel {
        bearer: BearerId(1),
        teid: 7,
    };
    let tunnels = TunnelList::from_slice(rt.alloc(), &[tunnel])?;
    assert!(rt; tunnels.get(0) == Some(&tunnel));
    Ok(())
}
