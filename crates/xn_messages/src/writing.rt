//! The value that is written for a message.
#![tactic(auto, unfolding(message_defs::specs::Xn::written_xn))]

ghost use Rattle.std.specs.Prelude.{◌≡◌, IfOk};
ghost use Rattle.message_types.specs.declared.xn.XnMessage.TheVariants as xns;
ghost use Rattle.aper_values.specs.Views.{view};
ghost use Rattle.message_defs.specs.Xn.{written_xn};

use crate::additions::origin_additions;
use crate::codes::{
    HANDOVER_CANCEL, HANDOVER_PREPARATION, SN_STATUS_TRANSFER, TRANSPORT_CONFIRM,
    UE_CONTEXT_RELEASE,
};
use aper_values::make::enumeral;
use aper_values::value::Value;
use gnb_types::items::Memory;
use gnb_types::names::{SnBits, UeId};
use gnb_types::octets::Octets;
use gnb_types::plans::{Peer, StatusList, TunnelList};
use gnb_types::results::beside;
use message_types::XnMessage;
use message_values::elements::ElementName;
use message_values::fields::{
    from_number, from_peer, from_sn, from_statuses, from_tunnels, from_ue,
};
use message_values::places::{
    INITIATING, Place, SUCCESSFUL, UNSUCCESSFUL, extended_message, message_of,
};
use std::alloc::Global;

/// The value of a message: its information elements in the order of the profile's table, each with criticality reject.
///
/// # Errors
/// Out of memory.
pub fn to_value(alloc: Global, msg: &XnMessage) -> Result<Value, Memory>
    ensures { IfOk result (λ v. view v ≡ written_xn msg.now) }
{
    match msg {
        XnMessage::HandoverRequest {
            ue,
            instance,
            epoch,
            bearers,
            sn,
            quota,
            peer,
            du,
            origin,
        } => Ok(handover_request(
            alloc, *ue, *instance, *epoch, *bearers, *sn, *quota, *peer, *du, origin,
        )?),
        XnMessage::HandoverRequestAcknowledge {
            ue,
            instance,
            peer,
            forward_down,
            forward_up,
        } => Ok(handover_request_acknowledge(
            alloc,
            *ue,
            *instance,
            *peer,
            forward_down,
            forward_up,
        )?),
        XnMessage::HandoverPreparationFailure {
            ue,
            instance,
            cause,
        } => Ok(handover_preparation_failure(alloc, *ue, *instance, *cause)?),
        XnMessage::SnStatusTransfer {
            ue,
            instance,
            statuses,
        } => Ok(sn_status_transfer(alloc, *ue, *instance, statuses)?),
        XnMessage::HandoverCancel { ue, instance } => Ok(handover_cancel(alloc, *ue, *instance)?),
        XnMessage::UeContextRelease { ue, instance } => Ok(context_release(alloc, *ue, *instance)?),
        XnMessage::TransportConfirm { ue, instance } => Ok(transport_confirm(
            alloc, *ue, *instance,
        )?),
    }
}

fn handover_request(
    alloc: Global,
    ue: UeId,
    instance: u32,
    epoch: u32,
    bearers: u8,
    sn: SnBits,
    quota: u16,
    peer: Peer,
    du: u8,
    origin: &Option<Octets>,
) -> Result<Value, Memory>
    ensures { IfOk result (λ v. view v ≡ written_xn (xns.HandoverRequest ue instance epoch bearers sn quota peer du origin.now)) }
{
    let place = Place {
        code: HANDOVER_PREPARATION,
        outcome: INITIATING,
    };
    let peer = from_peer(alloc, peer)?;
    let (additions, peer) = beside(origin_additions(alloc, origin), peer)?;
    let fields = [
        (ElementName::Ue, Some(from_ue(ue))),
        (ElementName::Instance, Some(from_number(instance))),
        (ElementName::Epoch, Some(from_number(epoch))),
        (ElementName::Bearers, Some(from_number(u32::from(bearers)))),
        (ElementName::Sn, Some(from_sn(sn))),
        (ElementName::Quota, Some(from_number(u32::from(quota)))),
        (ElementName::Peer, Some(peer)),
        (ElementName::Du, Some(from_number(u32::from(du)))),
    ];
    Ok(extended_message(alloc, place, fields, additions)?)
}

fn handover_request_acknowledge(
    alloc: Global,
    ue: UeId,
    instance: u32,
    peer: Peer,
    forward_down: &TunnelList,
    forward_up: &TunnelList,
) -> Result<Value, Memory>
    ensures { IfOk result (λ v. view v ≡ written_xn (xns.HandoverRequestAcknowledge ue instance peer forward_down.now forward_up.now)) }
{
    let place = Place {
        code: HANDOVER_PREPARATION,
        outcome: SUCCESSFUL,
    };
    let peer = from_peer(alloc, peer)?;
    let (forward_down, peer) = beside(from_tunnels(alloc, forward_down.as_slice()), peer)?;
    let (forward_up, (peer, forward_down)) = beside(
        from_tunnels(alloc, forward_up.as_slice()),
        (peer, forward_down),
    )?;
    let fields = [
        (ElementName::Ue, Some(from_ue(ue))),
        (ElementName::Instance, Some(from_number(instance))),
        (ElementName::Peer, Some(peer)),
        (ElementName::ForwardDown, Some(forward_down)),
        (ElementName::ForwardUp, Some(forward_up)),
    ];
    Ok(message_of(alloc, place, fields)?)
}

fn handover_preparation_failure(
    alloc: Global,
    ue: UeId,
    instance: u32,
    cause: u32,
) -> Result<Value, Memory>
    ensures { IfOk result (λ v. view v ≡ written_xn (xns.HandoverPreparationFailure ue instance cause)) }
{
    let place = Place {
        code: HANDOVER_PREPARATION,
        outcome: UNSUCCESSFUL,
    };
    let fields = [
        (ElementName::Ue, Some(from_ue(ue))),
        (ElementName::Instance, Some(from_number(instance))),
        (ElementName::Cause, Some(enumeral(cause))),
    ];
    Ok(message_of(alloc, place, fields)?)
}

fn sn_status_transfer(
    alloc: Global,
    ue: UeId,
    instance: u32,
    statuses: &StatusList,
) -> Result<Value, Memory>
    ensures { IfOk result (λ v. view v ≡ written_xn (xns.SnStatusTransfer ue instance statuses.now)) }
{
    let place = Place {
        code: SN_STATUS_TRANSFER,
        outcome: INITIATING,
    };
    let statuses = from_statuses(alloc, statuses.as_slice())?;
    let fields = [
        (ElementName::Ue, Some(from_ue(ue))),
        (ElementName::Instance, Some(from_number(instance))),
        (ElementName::Statuses, Some(statuses)),
    ];
    Ok(message_of(alloc, place, fields)?)
}

fn handover_cancel(alloc: Global, ue: UeId, instance: u32) -> Result<Value, Memory>
    ensures { IfOk result (λ v. view v ≡ written_xn (xns.HandoverCancel ue instance)) }
{
    let place = Place {
        code: HANDOVER_CANCEL,
        outcome: INITIATING,
    };
    let fields = [
        (ElementName::Ue, Some(from_ue(ue))),
        (ElementName::Instance, Some(from_number(instance))),
    ];
    Ok(message_of(alloc, place, fields)?)
}

fn context_release(alloc: Global, ue: UeId, instance: u32) -> Result<Value, Memory>
    ensures { IfOk result (λ v. view v ≡ written_xn (xns.UeContextRelease ue instance)) }
{
    let place = Place {
        code: UE_CONTEXT_RELEASE,
        outcome: INITIATING,
    };
    let fields = [
        (ElementName::Ue, Some(from_ue(ue))),
        (ElementName::Instance, Some(from_number(instance))),
    ];
    Ok(message_of(alloc, place, fields)?)
}

fn transport_confirm(alloc: Global, ue: UeId, instance: u32) -> Result<Value, Memory>
    ensures { IfOk result (λ v. view v ≡ written_xn (xns.TransportConfirm ue instance)) }
{
    let place = Place {
        code: TRANSPORT_CONFIRM,
        outcome: INITIATING,
    };
    let fields = [
        (ElementName::Ue, Some(from_ue(ue))),
        (ElementName::Instance, Some(from_number(instance))),
    ];
    Ok(message_of(alloc, place, fields)?)
}
