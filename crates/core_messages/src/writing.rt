//! The value that is written for a message.
#![tactic(auto, unfolding(message_defs::specs::Core::written_core))]

ghost use Rattle.std.specs.Prelude.{◌≡◌, IfOk};
ghost use Rattle.message_types.specs.declared.xn.CoreMessage.TheVariants as cores;
ghost use Rattle.aper_values.specs.Views.{view};
ghost use Rattle.message_defs.specs.Core.{written_core};

use crate::codes::PATH_SWITCH;
use aper_values::value::Value;
use gnb_types::items::Memory;
use gnb_types::names::UeId;
use gnb_types::plans::{Peer, TunnelList};
use gnb_types::results::beside;
use message_types::CoreMessage;
use message_values::elements::ElementName;
use message_values::fields::{from_number, from_peer, from_tunnels, from_ue};
use message_values::places::{INITIATING, Place, SUCCESSFUL, message_of};
use std::alloc::Global;

/// The value of a message: its information elements in the order of the profile's table, each with criticality reject.
///
/// # Errors
/// Out of memory.
pub fn to_value(alloc: Global, msg: &CoreMessage) -> Result<Value, Memory>
    ensures { IfOk result (λ v. view v ≡ written_core msg.now) }
{
    match msg {
        CoreMessage::PathSwitchRequest {
            ue,
            instance,
            peer,
            n3,
        } => Ok(path_switch_request(alloc, *ue, *instance, *peer, n3)?),
        CoreMessage::PathSwitchAcknowledge { ue, instance } => Ok(path_switch_acknowledge(
            alloc, *ue, *instance,
        )?),
    }
}

fn path_switch_request(
    alloc: Global,
    ue: UeId,
    instance: u32,
    peer: Peer,
    n3: &TunnelList,
) -> Result<Value, Memory>
    ensures { IfOk result (λ v. view v ≡ written_core (cores.PathSwitchRequest ue instance peer n3.now)) }
{
    let place = Place {
        code: PATH_SWITCH,
        outcome: INITIATING,
    };
    let peer = from_peer(alloc, peer)?;
    let (n3, peer) = beside(from_tunnels(alloc, n3.as_slice()), peer)?;
    let fields = [
        (ElementName::Ue, Some(from_ue(ue))),
        (ElementName::Instance, Some(from_number(instance))),
        (ElementName::Peer, Some(peer)),
        (ElementName::N3, Some(n3)),
    ];
    Ok(message_of(alloc, place, fields)?)
}

fn path_switch_acknowledge(alloc: Global, ue: UeId, instance: u32) -> Result<Value, Memory>
    ensures { IfOk result (λ v. view v ≡ written_core (cores.PathSwitchAcknowledge ue instance)) }
{
    let place = Place {
        code: PATH_SWITCH,
        outcome: SUCCESSFUL,
    };
    let fields = [
        (ElementName::Ue, Some(from_ue(ue))),
        (ElementName::Instance, Some(from_number(instance))),
    ];
    Ok(message_of(alloc, place, fields)?)
}
