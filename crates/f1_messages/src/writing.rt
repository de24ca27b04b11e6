//! The value that is written for a message.
#![tactic(auto, unfolding(message_defs::specs::F1::written_f1))]

ghost use Rattle.std.specs.Prelude.{◌≡◌, IfOk};
ghost use Rattle.message_types.specs.declared.f1.F1.TheVariants as f1s;
ghost use Rattle.aper_values.specs.Views.{view};
ghost use Rattle.message_defs.specs.F1.{written_f1};

use crate::codes::{
    DL_RRC_MESSAGE_TRANSFER, F1_SETUP, UE_CONTEXT_MODIFICATION, UE_CONTEXT_RELEASE,
    UE_CONTEXT_SETUP, UL_RRC_MESSAGE_TRANSFER,
};
use aper_values::value::Value;
use gnb_types::items::Memory;
use gnb_types::names::{SnBits, UeId};
use gnb_types::octets::Octets;
use gnb_types::plans::{Peer, TunnelList};
use gnb_types::results::beside;
use message_types::F1Message;
use message_values::elements::ElementName;
use message_values::fields::{
    from_number, from_octets, from_peer, from_sn, from_text, from_tunnels, from_ue,
};
use message_values::places::{INITIATING, Place, SUCCESSFUL, message_of};
use std::alloc::Global;

/// The value of a message.
pub fn to_value(alloc: Global, msg: &F1Message) -> Result<Value, Memory>
    ensures { IfOk result (λ v. view v ≡ written_f1 msg.now) }
{
    match msg {
        F1Message::F1SetupRequest { instance, name } => Ok(setup_request(alloc, *instance, name)?),
        F1Message::F1SetupResponse { instance } => Ok(setup_response(alloc, *instance)?),
        F1Message::UeContextSetupRequest {
            ue,
            instance,
            epoch,
            uplinks,
            sn,
            peer,
        } => Ok(context_setup_request(alloc, *ue, *instance, *epoch, uplinks, *sn, *peer)?),
        F1Message::UeContextSetupResponse {
            ue,
            instance,
            downlinks,
        } => Ok(context_setup_response(alloc, *ue, *instance, downlinks)?),
        F1Message::UeContextModificationRequest {
            ue,
            instance,
            epoch,
        } => Ok(modification_request(alloc, *ue, *instance, *epoch)?),
        F1Message::UeContextModificationResponse {
            ue,
            instance,
            downlinks,
        } => Ok(modification_response(alloc, *ue, *instance, downlinks)?),
        F1Message::UeContextReleaseCommand { ue, instance } => Ok(release_command(
            alloc, *ue, *instance,
        )?),
        F1Message::UeContextReleaseComplete { ue, instance } => Ok(release_complete(
            alloc, *ue, *instance,
        )?),
        F1Message::DlRrcMessageTransfer { ue, container } => Ok(downlink_transfer(
            alloc, *ue, container,
        )?),
        F1Message::UlRrcMessageTransfer { ue, container } => Ok(uplink_transfer(
            alloc, *ue, container,
        )?),
    }
}

fn setup_request(alloc: Global, instance: u32, name: &Octets) -> Result<Value, Memory>
    ensures { IfOk result (λ v. view v ≡ written_f1 (f1s.F1SetupRequest instance name.now)) }
{
    let place = Place {
        code: F1_SETUP,
        outcome: INITIATING,
    };
    let name = from_text(alloc, name)?;
    let fields = [
        (ElementName::Instance, Some(from_number(instance))),
        (ElementName::Name, Some(name)),
    ];
    Ok(message_of(alloc, place, fields)?)
}

fn setup_response(alloc: Global, instance: u32) -> Result<Value, Memory>
    ensures { IfOk result (λ v. view v ≡ written_f1 (f1s.F1SetupResponse instance)) }
{
    let place = Place {
        code: F1_SETUP,
        outcome: SUCCESSFUL,
    };
    let fields = [(ElementName::Instance, Some(from_number(instance)))];
    Ok(message_of(alloc, place, fields)?)
}

fn context_setup_request(
    alloc: Global,
    ue: UeId,
    instance: u32,
    epoch: u32,
    uplinks: &TunnelList,
    sn: SnBits,
    peer: Peer,
) -> Result<Value, Memory>
    ensures { IfOk result (λ v. view v ≡ written_f1 (f1s.UeContextSetupRequest ue instance epoch uplinks.now sn peer)) }
{
    let place = Place {
        code: UE_CONTEXT_SETUP,
        outcome: INITIATING,
    };
    let uplinks = from_tunnels(alloc, uplinks.as_slice())?;
    let (peer, uplinks) = beside(from_peer(alloc, peer), uplinks)?;
    let fields = [
        (ElementName::Ue, Some(from_ue(ue))),
        (ElementName::Instance, Some(from_number(instance))),
        (ElementName::Epoch, Some(from_number(epoch))),
        (ElementName::Uplinks, Some(uplinks)),
        (ElementName::Sn, Some(from_sn(sn))),
        (ElementName::Peer, Some(peer)),
    ];
    Ok(message_of(alloc, place, fields)?)
}

fn context_setup_response(
    alloc: Global,
    ue: UeId,
    instance: u32,
    downlinks: &TunnelList,
) -> Result<Value, Memory>
    ensures { IfOk result (λ v. view v ≡ written_f1 (f1s.UeContextSetupResponse ue instance downlinks.now)) }
{
    let place = Place {
        code: UE_CONTEXT_SETUP,
        outcome: SUCCESSFUL,
    };
    let downlinks = from_tunnels(alloc, downlinks.as_slice())?;
    let fields = [
        (ElementName::Ue, Some(from_ue(ue))),
        (ElementName::Instance, Some(from_number(instance))),
        (ElementName::Downlinks, Some(downlinks)),
    ];
    Ok(message_of(alloc, place, fields)?)
}

fn modification_request(alloc: Global, ue: UeId, instance: u32, epoch: u32) -> Result<Value, Memory>
    ensures { IfOk result (λ v. view v ≡ written_f1 (f1s.UeContextModificationRequest ue instance epoch)) }
{
    let place = Place {
        code: UE_CONTEXT_MODIFICATION,
        outcome: INITIATING,
    };
    let fields = [
        (ElementName::Ue, Some(from_ue(ue))),
        (ElementName::Instance, Some(from_number(instance))),
        (ElementName::Epoch, Some(from_number(epoch))),
    ];
    Ok(message_of(alloc, place, fields)?)
}

fn modification_response(
    alloc: Global,
    ue: UeId,
    instance: u32,
    downlinks: &TunnelList,
) -> Result<Value, Memory>
    ensures { IfOk result (λ v. view v ≡ written_f1 (f1s.UeContextModificationResponse ue instance downlinks.now)) }
{
    let place = Place {
        code: UE_CONTEXT_MODIFICATION,
        outcome: SUCCESSFUL,
    };
    let downlinks = from_tunnels(alloc, downlinks.as_slice())?;
    let fields = [
        (ElementName::Ue, Some(from_ue(ue))),
        (ElementName::Instance, Some(from_number(instance))),
        (ElementName::Downlinks, Some(downlinks)),
    ];
    Ok(message_of(alloc, place, fields)?)
}

fn release_command(alloc: Global, ue: UeId, instance: u32) -> Result<Value, Memory>
    ensures { IfOk result (λ v. view v ≡ written_f1 (f1s.UeContextReleaseCommand ue instance)) }
{
    let place = Place {
        code: UE_CONTEXT_RELEASE,
        outcome: INITIATING,
    };
    let fields = [
        (ElementName::Ue, Some(from_ue(ue))),
        (ElementName::Instance, Some(from_number(instance))),
    ];
    Ok(message_of(alloc, place, fields)?)
}

fn release_complete(alloc: Global, ue: UeId, instance: u32) -> Result<Value, Memory>
    ensures { IfOk result (λ v. view v ≡ written_f1 (f1s.UeContextReleaseComplete ue instance)) }
{
    let place = Place {
        code: UE_CONTEXT_RELEASE,
        outcome: SUCCESSFUL,
    };
    let fields = [
        (ElementName::Ue, Some(from_ue(ue))),
        (ElementName::Instance, Some(from_number(instance))),
    ];
    Ok(message_of(alloc, place, fields)?)
}

fn downlink_transfer(alloc: Global, ue: UeId, container: &Octets) -> Result<Value, Memory>
    ensures { IfOk result (λ v. view v ≡ written_f1 (f1s.DlRrcMessageTransfer ue container.now)) }
{
    let place = Place {
        code: DL_RRC_MESSAGE_TRANSFER,
        outcome: INITIATING,
    };
    let container = from_octets(alloc, container)?;
    let fields = [
        (ElementName::Ue, Some(from_ue(ue))),
        (ElementName::Container, Some(container)),
    ];
    Ok(message_of(alloc, place, fields)?)
}

fn uplink_transfer(alloc: Global, ue: UeId, container: &Octets) -> Result<Value, Memory>
    ensures { IfOk result (λ v. view v ≡ written_f1 (f1s.UlRrcMessageTransfer ue container.now)) }
{
    let place = Place {
        code: UL_RRC_MESSAGE_TRANSFER,
        outcome: INITIATING,
    };
    let container = from_octets(alloc, container)?;
    let fields = [
        (ElementName::Ue, Some(from_ue(ue))),
        (ElementName::Container, Some(container)),
    ];
    Ok(message_of(alloc, place, fields)?)
}
