//! The value that is written for a message.
#![tactic(auto, unfolding(message_defs::specs::E1::written_e1))]

ghost use Rattle.std.specs.Prelude.{◌≡◌, IfOk};
ghost use Rattle.message_types.specs.declared.e1.E1Message.TheVariants as e1s;
ghost use Rattle.aper_values.specs.Views.{view};
ghost use Rattle.message_defs.specs.E1.{written_e1};

use crate::codes::{
    BEARER_CONTEXT_MODIFICATION, BEARER_CONTEXT_RELEASE, BEARER_CONTEXT_SETUP, E1_SETUP,
};
use aper_values::make::{enumeral, truth};
use aper_values::value::Value;
use gnb_types::items::Memory;
use gnb_types::names::{SnBits, UeId};
use gnb_types::octets::Octets;
use gnb_types::plans::{Peer, StatusList, TunnelList};
use gnb_types::results::beside;
use message_types::E1Message;
use message_values::elements::ElementName;
use message_values::fields::{
    from_any_octet, from_any_peer, from_any_statuses, from_any_tunnels, from_number, from_sn,
    from_text, from_tunnels, from_ue,
};
use message_values::places::{INITIATING, Place, SUCCESSFUL, UNSUCCESSFUL, message_of};
use std::alloc::Global;

/// The value of a message.
pub fn to_value(alloc: Global, msg: &E1Message) -> Result<Value, Memory>
    ensures { IfOk result (λ v. view v ≡ written_e1 msg.now) }
{
    match msg {
        E1Message::E1SetupRequest { instance, name } => Ok(setup_request(alloc, *instance, name)?),
        E1Message::E1SetupResponse { instance } => Ok(setup_response(alloc, *instance)?),
        E1Message::BearerContextSetupRequest {
            ue,
            instance,
            bearers,
            sn,
            quota,
            forward,
        } => Ok(context_setup_request(alloc, *ue, *instance, *bearers, *sn, *quota, *forward)?),
        E1Message::BearerContextSetupResponse {
            ue,
            instance,
            uplinks,
            n3,
            forward_down,
            forward_up,
        } => Ok(context_setup_response(
            alloc,
            *ue,
            *instance,
            uplinks,
            n3,
            forward_down,
            forward_up,
        )?),
        E1Message::BearerContextSetupFailure {
            ue,
            instance,
            cause,
        } => Ok(context_setup_failure(alloc, *ue, *instance, *cause)?),
        E1Message::BearerContextModificationRequest {
            ue,
            instance,
            downlinks,
            mode,
            peer,
            forward_down,
            forward_up,
            statuses,
            du,
        } => Ok(modification_request(
            alloc,
            *ue,
            *instance,
            downlinks,
            *mode,
            *peer,
            forward_down,
            forward_up,
            statuses,
            *du,
        )?),
        E1Message::BearerContextModificationResponse {
            ue,
            instance,
            uplinks,
            statuses,
        } => Ok(modification_response(alloc, *ue, *instance, uplinks, statuses)?),
        E1Message::BearerContextModificationFailure {
            ue,
            instance,
            cause,
        } => Ok(modification_failure(alloc, *ue, *instance, *cause)?),
        E1Message::BearerContextReleaseCommand {
            ue,
            instance,
            is_final,
        } => Ok(release_command(alloc, *ue, *instance, *is_final)?),
        E1Message::BearerContextReleaseComplete { ue, instance } => Ok(release_complete(
            alloc, *ue, *instance,
        )?),
    }
}

fn setup_request(alloc: Global, instance: u32, name: &Octets) -> Result<Value, Memory>
    ensures { IfOk result (λ v. view v ≡ written_e1 (e1s.E1SetupRequest instance name.now)) }
{
    let place = Place {
        code: E1_SETUP,
        outcome: INITIATING,
    };
    let name = from_text(alloc, name)?;
    let fields = [
        (ElementName::Instance, Some(from_number(instance))),
        (ElementName::Name, Some(name)),
    ];
    Ok(message_of(alloc, place, fields)?)
}

fn setup_response(alloc: Global, instance: u32) -> Result<Value, Memory>
    ensures { IfOk result (λ v. view v ≡ written_e1 (e1s.E1SetupResponse instance)) }
{
    let place = Place {
        code: E1_SETUP,
        outcome: SUCCESSFUL,
    };
    let fields = [(ElementName::Instance, Some(from_number(instance)))];
    Ok(message_of(alloc, place, fields)?)
}

fn context_setup_request(
    alloc: Global,
    ue: UeId,
    instance: u32,
    bearers: u8,
    sn: SnBits,
    quota: u16,
    forward: bool,
) -> Result<Value, Memory>
    ensures { IfOk result (λ v. view v ≡ written_e1 (e1s.BearerContextSetupRequest ue instance bearers sn quota forward)) }
{
    let place = Place {
        code: BEARER_CONTEXT_SETUP,
        outcome: INITIATING,
    };
    let fields = [
        (ElementName::Ue, Some(from_ue(ue))),
        (ElementName::Instance, Some(from_number(instance))),
        (ElementName::Bearers, Some(from_number(u32::from(bearers)))),
        (ElementName::Sn, Some(from_sn(sn))),
        (ElementName::Quota, Some(from_number(u32::from(quota)))),
        (ElementName::Forward, Some(truth(forward))),
    ];
    Ok(message_of(alloc, place, fields)?)
}

#[tactic(auto, using(crate::proofs::InOrder::put_next), unfolding(message_defs::specs::E1::written_e1))]
fn context_setup_response(
    alloc: Global,
    ue: UeId,
    instance: u32,
    uplinks: &TunnelList,
    n3: &TunnelList,
    forward_down: &Option<TunnelList>,
    forward_up: &Option<TunnelList>,
) -> Result<Value, Memory>
    ensures { IfOk result (λ v. view v ≡ written_e1 (e1s.BearerContextSetupResponse ue instance uplinks.now n3.now forward_down.now forward_up.now)) }
{
    let place = Place {
        code: BEARER_CONTEXT_SETUP,
        outcome: SUCCESSFUL,
    };
    let uplinks = from_tunnels(alloc, uplinks.as_slice())?;
    let (n3, uplinks) = beside(from_tunnels(alloc, n3.as_slice()), uplinks)?;
    let (forward_down, (uplinks, n3)) = beside(
        from_any_tunnels(alloc, forward_down),
        (uplinks, n3),
    )?;
    let (forward_up, (uplinks, n3, forward_down)) = beside(
        from_any_tunnels(alloc, forward_up),
        (uplinks, n3, forward_down),
    )?;
    let fields = [
        (ElementName::Ue, Some(from_ue(ue))),
        (ElementName::Instance, Some(from_number(instance))),
        (ElementName::Uplinks, Some(uplinks)),
        (ElementName::N3, Some(n3)),
        (ElementName::ForwardDown, forward_down),
        (ElementName::ForwardUp, forward_up),
    ];
    Ok(message_of(alloc, place, fields)?)
}

fn context_setup_failure(
    alloc: Global,
    ue: UeId,
    instance: u32,
    cause: u32,
) -> Result<Value, Memory>
    ensures { IfOk result (λ v. view v ≡ written_e1 (e1s.BearerContextSetupFailure ue instance cause)) }
{
    let place = Place {
        code: BEARER_CONTEXT_SETUP,
        outcome: UNSUCCESSFUL,
    };
    let fields = [
        (ElementName::Ue, Some(from_ue(ue))),
        (ElementName::Instance, Some(from_number(instance))),
        (ElementName::Cause, Some(enumeral(cause))),
    ];
    Ok(message_of(alloc, place, fields)?)
}

fn modification_request(
    alloc: Global,
    ue: UeId,
    instance: u32,
    downlinks: &Option<TunnelList>,
    mode: u32,
    peer: Option<Peer>,
    forward_down: &Option<TunnelList>,
    forward_up: &Option<TunnelList>,
    statuses: &Option<StatusList>,
    du: Option<u8>,
) -> Result<Value, Memory>
    ensures { IfOk result (λ v. view v ≡ written_e1 (e1s.BearerContextModificationRequest ue instance downlinks.now mode peer forward_down.now forward_up.now statuses.now du)) }
{
    let place = Place {
        code: BEARER_CONTEXT_MODIFICATION,
        outcome: INITIATING,
    };
    let downlinks = from_any_tunnels(alloc, downlinks)?;
    let (peer, downlinks) = beside(from_any_peer(alloc, peer), downlinks)?;
    let (forward_down, (downlinks, peer)) = beside(
        from_any_tunnels(alloc, forward_down),
        (downlinks, peer),
    )?;
    let (forward_up, (downlinks, peer, forward_down)) = beside(
        from_any_tunnels(alloc, forward_up),
        (downlinks, peer, forward_down),
    )?;
    let (statuses, (downlinks, peer, forward_down, forward_up)) = beside(
        from_any_statuses(alloc, statuses),
        (downlinks, peer, forward_down, forward_up),
    )?;
    let fields = [
        (ElementName::Ue, Some(from_ue(ue))),
        (ElementName::Instance, Some(from_number(instance))),
        (ElementName::Downlinks, downlinks),
        (ElementName::Mode, Some(enumeral(mode))),
        (ElementName::Peer, peer),
        (ElementName::ForwardDown, forward_down),
        (ElementName::ForwardUp, forward_up),
        (ElementName::Statuses, statuses),
        (ElementName::Du, from_any_octet(du)),
    ];
    Ok(message_of(alloc, place, fields)?)
}

#[tactic(auto, using(crate::proofs::InOrder::put_next), unfolding(message_defs::specs::E1::written_e1))]
fn modification_response(
    alloc: Global,
    ue: UeId,
    instance: u32,
    uplinks: &Option<TunnelList>,
    statuses: &Option<StatusList>,
) -> Result<Value, Memory>
    ensures { IfOk result (λ v. view v ≡ written_e1 (e1s.BearerContextModificationResponse ue instance uplinks.now statuses.now)) }
{
    let place = Place {
        code: BEARER_CONTEXT_MODIFICATION,
        outcome: SUCCESSFUL,
    };
    let uplinks = from_any_tunnels(alloc, uplinks)?;
    let (statuses, uplinks) = beside(from_any_statuses(alloc, statuses), uplinks)?;
    let fields = [
        (ElementName::Ue, Some(from_ue(ue))),
        (ElementName::Instance, Some(from_number(instance))),
        (ElementName::Uplinks, uplinks),
        (ElementName::Statuses, statuses),
    ];
    Ok(message_of(alloc, place, fields)?)
}

fn modification_failure(alloc: Global, ue: UeId, instance: u32, cause: u32) -> Result<Value, Memory>
    ensures { IfOk result (λ v. view v ≡ written_e1 (e1s.BearerContextModificationFailure ue instance cause)) }
{
    let place = Place {
        code: BEARER_CONTEXT_MODIFICATION,
        outcome: UNSUCCESSFUL,
    };
    let fields = [
        (ElementName::Ue, Some(from_ue(ue))),
        (ElementName::Instance, Some(from_number(instance))),
        (ElementName::Cause, Some(enumeral(cause))),
    ];
    Ok(message_of(alloc, place, fields)?)
}

fn release_command(alloc: Global, ue: UeId, instance: u32, is_final: bool) -> Result<Value, Memory>
    ensures { IfOk result (λ v. view v ≡ written_e1 (e1s.BearerContextReleaseCommand ue instance is_final)) }
{
    let place = Place {
        code: BEARER_CONTEXT_RELEASE,
        outcome: INITIATING,
    };
    let fields = [
        (ElementName::Ue, Some(from_ue(ue))),
        (ElementName::Instance, Some(from_number(instance))),
        (ElementName::Final, Some(truth(is_final))),
    ];
    Ok(message_of(alloc, place, fields)?)
}

fn release_complete(alloc: Global, ue: UeId, instance: u32) -> Result<Value, Memory>
    ensures { IfOk result (λ v. view v ≡ written_e1 (e1s.BearerContextReleaseComplete ue instance)) }
{
    let place = Place {
        code: BEARER_CONTEXT_RELEASE,
        outcome: SUCCESSFUL,
    };
    let fields = [
        (ElementName::Ue, Some(from_ue(ue))),
        (ElementName::Instance, Some(from_number(instance))),
    ];
    Ok(message_of(alloc, place, fields)?)
}
