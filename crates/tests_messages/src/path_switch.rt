//! The messages of the path switch with their least and greatest fields.

ghost use Rattle.std.specs.Prelude.{[]};
ghost use Rattle.aper_defs.specs.Membership.{Has};
ghost use Rattle.message_defs.specs.profile_defs.Profile.{core_type};
ghost use Rattle.message_defs.specs.Core.{written_core};

use core_messages::reading::from_value;
use core_messages::writing::to_value;
use gnb_types::names::{BearerId, Gnb, UeId};
use gnb_types::plans::{Peer, Tunnel, TunnelList};
use message_types::CoreMessage;
use message_values::error::MsgError;
use std::alloc::Global;
use std::process::Abort;
use std::test::Fail;

/// Whether a message is heard in what is written for it.
fn is_received(alloc: Global, msg: &CoreMessage) -> Result<bool, MsgError>
    requires { Has [] core_type (written_core msg.now) }
{
    let value = to_value(alloc, msg)?;
    Ok(from_value(alloc, &value)? == *msg)
}

#[test]
fn a_request(rt: HostRuntime) -> Result<(), Fail> {
    let alloc = rt.alloc();
    let tunnel = Tunnel {
        bearer: BearerId(8),
        teid: u32::MAX,
    };
    let request = CoreMessage::PathSwitchRequest {
        ue: UeId(16),
        instance: u32::MAX,
        peer: Peer { gnb: Gnb::B, up: 2 },
        n3: TunnelList::one(alloc, tunnel)?,
    };
    assert!(rt; is_received(alloc, &request)?);
    Ok(())
}

#[test]
fn an_acknowledge(rt: HostRuntime) -> Result<(), Fail> {
    let acknowledge = CoreMessage::PathSwitchAcknowledge {
        ue: UeId(1),
        instance: 0,
    };
    assert!(rt; is_received(rt.alloc(), &acknowledge)?);
    Ok(())
}
