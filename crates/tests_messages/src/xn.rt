//! The messages of XnAP: those of a handover that is prepared in version 2 of the profile, and the others.

ghost use Rattle.std.specs.Prelude.{ℕ, []};
ghost use Rattle.aper_defs.specs.Membership.{Has};
ghost use Rattle.message_defs.specs.profile_defs.Profile.{xn_type};
ghost use Rattle.message_defs.specs.Xn.{written_xn};

use gnb_types::bits::Bits;
use gnb_types::names::{BearerId, Gnb, SnBits, UeId};
use gnb_types::octets::Octets;
use gnb_types::plans::{Peer, SnStatus, StatusList, Tunnel, TunnelList};
use message_types::XnMessage;
use message_values::error::MsgError;
use std::alloc::Global;
use std::process::Abort;
use std::test::Fail;
use xn_messages::reading::from_value;
use xn_messages::writing::to_value;

/// Whether a message is heard in what is written for it.
fn is_received(alloc: Global, msg: &XnMessage) -> Result<bool, MsgError>
    requires { (version : ℕ) × Has [] (xn_type version) (written_xn msg.now) }
{
    let value = to_value(alloc, msg)?;
    Ok(from_value(alloc, &value)? == *msg)
}

#[test]
fn a_request(rt: HostRuntime) -> Result<(), Fail> {
    let request = XnMessage::HandoverRequest {
        ue: UeId(1),
        instance: 0,
        epoch: 0,
        bearers: 1,
        sn: SnBits::Len12,
        quota: 4,
        peer: Peer { gnb: Gnb::A, up: 1 },
        du: 1,
        origin: None,
    };
    assert!(rt; is_received(rt.alloc(), &request)?);
    Ok(())
}

#[test]
fn a_request_with_an_origin(rt: HostRuntime) -> Result<(), Fail> {
    let alloc = rt.alloc();
    let request = XnMessage::HandoverRequest {
        ue: UeId(16),
        instance: u32::MAX,
        epoch: u32::MAX,
        bearers: 8,
        sn: SnBits::Len18,
        quota: 4096,
        peer: Peer { gnb: Gnb::B, up: 2 },
        du: 2,
        origin: Some(Octets::from_slice(alloc, b"A.cp")?),
    };
    assert!(rt; is_received(alloc, &request)?);
    Ok(())
}

#[test]
fn an_acknowledge(rt: HostRuntime) -> Result<(), Fail> {
    let alloc = rt.alloc();
    let acknowledge = XnMessage::HandoverRequestAcknowledge {
        ue: UeId(2),
        instance: 1,
        peer: Peer { gnb: Gnb::B, up: 1 },
        forward_down: TunnelList::one(
            alloc,
            Tunnel {
                bearer: BearerId(1),
                teid: 3,
            },
        )?,
        forward_up: TunnelList::one(
            alloc,
            Tunnel {
                bearer: BearerId(1),
                teid: 4,
            },
        )?,
    };
    assert!(rt; is_received(alloc, &acknowledge)?);
    Ok(())
}

#[test]
fn a_failure(rt: HostRuntime) -> Result<(), Fail> {
    let failure = XnMessage::HandoverPreparationFailure {
        ue: UeId(2),
        instance: 1,
        cause: 66,
    };
    assert!(rt; is_received(rt.alloc(), &failure)?);
    Ok(())
}

#[test]
fn statuses(rt: HostRuntime) -> Result<(), Fail> {
    let alloc = rt.alloc();
    let status = SnStatus {
        bearer: BearerId(1),
        dl_next: 7,
        ul_first: u32::MAX,
        ul_received: Some(Bits::one(alloc, true)?),
    };
    let transfer = XnMessage::SnStatusTransfer {
        ue: UeId(3),
        instance: 2,
        statuses: StatusList::one(alloc, status)?,
    };
    assert!(rt; is_received(alloc, &transfer)?);
    Ok(())
}

#[test]
fn what_ends_a_handover(rt: HostRuntime) -> Result<(), Fail> {
    let cancel = XnMessage::HandoverCancel {
        ue: UeId(1),
        instance: 3,
    };
    assert!(rt; is_received(rt.alloc(), &cancel)?);
    let release = XnMessage::UeContextRelease {
        ue: UeId(1),
        instance: 4,
    };
    assert!(rt; is_received(rt.alloc(), &release)?);
    let confirm = XnMessage::TransportConfirm {
        ue: UeId(1),
        instance: 5,
    };
    assert!(rt; is_received(rt.alloc(), &confirm)?);
    Ok(())
}
