//! The message that is heard in a value.
#![tactic(auto, unfolding(message_defs::specs::F1::f1_at))]

ghost use Rattle.std.specs.Prelude.{◌≡◌, ℕ, []};
ghost use Rattle.aper_defs.specs.Membership.{Has};
ghost use Rattle.message_defs.specs.profile_defs.Profile.{f1_type};
ghost use Rattle.aper_values.specs.Views.{view, ies_view};
ghost use Rattle.message_defs.specs.F1.{f1_at, f1_from_value};
ghost use Rattle.message_values.specs.Fitting.{AreFitting};
ghost use Rattle.message_values.specs.Reading.{IsFromValue};
ghost use Rattle.message_values.specs.declared.places.TheConstants.{INITIATING, SUCCESSFUL};
ghost use Rattle.f1_messages.specs.declared.codes.TheConstants.{DL_RRC_MESSAGE_TRANSFER, F1_SETUP, UE_CONTEXT_MODIFICATION, UE_CONTEXT_RELEASE, UE_CONTEXT_SETUP, UL_RRC_MESSAGE_TRANSFER};

use crate::codes::{
    DL_RRC_MESSAGE_TRANSFER, F1_SETUP, UE_CONTEXT_MODIFICATION, UE_CONTEXT_RELEASE,
    UE_CONTEXT_SETUP, UL_RRC_MESSAGE_TRANSFER,
};
use aper_values::value::{Ie, Value};
use message_types::F1Message;
use message_values::elements::{ElementName, Use};
use message_values::error::MsgError;
use message_values::found::{
    elements_in, first_rejected, the_container, the_name, the_number, the_peer, the_sn,
    the_tunnels, the_ue,
};
use message_values::places::{INITIATING, SUCCESSFUL};
use std::alloc::Global;

/// The message that a value of the PDU says.
#[tactic(auto, unfolding(message_defs::specs::F1::f1_from_value))]
pub fn from_value(alloc: Global, value: &Value) -> Result<F1Message, MsgError>
    requires { Has [] f1_type (view value.now) }
    ensures { IsFromValue (f1_from_value (view value.now)) result }
{
    match value {
        Value::Pdu {
            outcome,
            code,
            criticality,
            body,
        } => { Ok(from_value_at(alloc, *outcome, *code, *criticality, elements_in(body))?) }
        _ => Err(MsgError::UnknownProcedure {
            code: 0,
            criticality: 0,
        }),
    }
}

/// The message of a procedure's code for an outcome.
fn from_value_at(
    alloc: Global,
    outcome: u32,
    code: u8,
    criticality: u8,
    found: &[Ie],
) -> Result<F1Message, MsgError>
    requires { AreFitting (ies_view found.now) }
    ensures { IsFromValue (f1_at outcome code criticality (ies_view found.now)) result }
{
    match code {
        F1_SETUP => Ok(setup(alloc, outcome, criticality, found)?),
        UE_CONTEXT_SETUP => Ok(context_setup(alloc, outcome, criticality, found)?),
        UE_CONTEXT_MODIFICATION => Ok(modification(alloc, outcome, criticality, found)?),
        UE_CONTEXT_RELEASE => Ok(release(outcome, criticality, found)?),
        DL_RRC_MESSAGE_TRANSFER => Ok(downlink(alloc, outcome, criticality, found)?),
        UL_RRC_MESSAGE_TRANSFER => Ok(uplink(alloc, outcome, criticality, found)?),
        _ => Err(MsgError::UnknownProcedure { code, criticality }),
    }
}

fn setup(alloc: Global, outcome: u32, criticality: u8, found: &[Ie]) -> Result<F1Message, MsgError>
    requires { AreFitting (ies_view found.now) }
    ensures { IsFromValue (f1_at outcome F1_SETUP criticality (ies_view found.now)) result }
{
    match outcome {
        INITIATING => setup_request(alloc, found),
        SUCCESSFUL => setup_response(found),
        _ => Err(MsgError::UnknownProcedure {
            code: F1_SETUP,
            criticality,
        }),
    }
}

fn context_setup(
    alloc: Global,
    outcome: u32,
    criticality: u8,
    found: &[Ie],
) -> Result<F1Message, MsgError>
    requires { AreFitting (ies_view found.now) }
    ensures { IsFromValue (f1_at outcome UE_CONTEXT_SETUP criticality (ies_view found.now)) result }
{
    match outcome {
        INITIATING => context_setup_request(alloc, found),
        SUCCESSFUL => context_setup_response(alloc, found),
        _ => Err(MsgError::UnknownProcedure {
            code: UE_CONTEXT_SETUP,
            criticality,
        }),
    }
}

fn modification(
    alloc: Global,
    outcome: u32,
    criticality: u8,
    found: &[Ie],
) -> Result<F1Message, MsgError>
    requires { AreFitting (ies_view found.now) }
    ensures { IsFromValue (f1_at outcome UE_CONTEXT_MODIFICATION criticality (ies_view found.now)) result }
{
    match outcome {
        INITIATING => modification_request(found),
        SUCCESSFUL => modification_response(alloc, found),
        _ => Err(MsgError::UnknownProcedure {
            code: UE_CONTEXT_MODIFICATION,
            criticality,
        }),
    }
}

fn release(outcome: u32, criticality: u8, found: &[Ie]) -> Result<F1Message, MsgError>
    requires { AreFitting (ies_view found.now) }
    ensures { IsFromValue (f1_at outcome UE_CONTEXT_RELEASE criticality (ies_view found.now)) result }
{
    match outcome {
        INITIATING => release_command(found),
        SUCCESSFUL => release_complete(found),
        _ => Err(MsgError::UnknownProcedure {
            code: UE_CONTEXT_RELEASE,
            criticality,
        }),
    }
}

fn downlink(
    alloc: Global,
    outcome: u32,
    criticality: u8,
    found: &[Ie],
) -> Result<F1Message, MsgError>
    requires { AreFitting (ies_view found.now) }
    ensures { IsFromValue (f1_at outcome DL_RRC_MESSAGE_TRANSFER criticality (ies_view found.now)) result }
{
    match outcome {
        INITIATING => downlink_transfer(alloc, found),
        _ => Err(MsgError::UnknownProcedure {
            code: DL_RRC_MESSAGE_TRANSFER,
            criticality,
        }),
    }
}

fn uplink(alloc: Global, outcome: u32, criticality: u8, found: &[Ie]) -> Result<F1Message, MsgError>
    requires { AreFitting (ies_view found.now) }
    ensures { IsFromValue (f1_at outcome UL_RRC_MESSAGE_TRANSFER criticality (ies_view found.now)) result }
{
    match outcome {
        INITIATING => uplink_transfer(alloc, found),
        _ => Err(MsgError::UnknownProcedure {
            code: UL_RRC_MESSAGE_TRANSFER,
            criticality,
        }),
    }
}

fn setup_request(alloc: Global, found: &[Ie]) -> Result<F1Message, MsgError>
    requires { AreFitting (ies_view found.now) }
    ensures { (criticality : ℕ) → IsFromValue (f1_at INITIATING F1_SETUP criticality (ies_view found.now)) result }
{
    let uses = [
        Use::Mandatory(ElementName::Instance),
        Use::Mandatory(ElementName::Name),
    ];
    if let Some(id) = first_rejected(&uses, found) {
        return Err(MsgError::UnknownIe { id });
    }
    Ok(F1Message::F1SetupRequest {
        instance: the_number(found, ElementName::Instance),
        name: the_name(alloc, found)?,
    })
}

fn setup_response(found: &[Ie]) -> Result<F1Message, MsgError>
    requires { AreFitting (ies_view found.now) }
    ensures { (criticality : ℕ) → IsFromValue (f1_at SUCCESSFUL F1_SETUP criticality (ies_view found.now)) result }
{
    let uses = [Use::Mandatory(ElementName::Instance)];
    if let Some(id) = first_rejected(&uses, found) {
        return Err(MsgError::UnknownIe { id });
    }
    Ok(F1Message::F1SetupResponse {
        instance: the_number(found, ElementName::Instance),
    })
}

fn context_setup_request(alloc: Global, found: &[Ie]) -> Result<F1Message, MsgError>
    requires { AreFitting (ies_view found.now) }
    ensures { (criticality : ℕ) → IsFromValue (f1_at INITIATING UE_CONTEXT_SETUP criticality (ies_view found.now)) result }
{
    let uses = [
        Use::Mandatory(ElementName::Ue),
        Use::Mandatory(ElementName::Instance),
        Use::Mandatory(ElementName::Epoch),
        Use::Mandatory(ElementName::Uplinks),
        Use::Mandatory(ElementName::Sn),
        Use::Mandatory(ElementName::Peer),
    ];
    if let Some(id) = first_rejected(&uses, found) {
        return Err(MsgError::UnknownIe { id });
    }
    Ok(F1Message::UeContextSetupRequest {
        ue: the_ue(found),
        instance: the_number(found, ElementName::Instance),
        epoch: the_number(found, ElementName::Epoch),
        uplinks: the_tunnels(alloc, found, ElementName::Uplinks)?,
        sn: the_sn(found),
        peer: the_peer(found),
    })
}

fn context_setup_response(alloc: Global, found: &[Ie]) -> Result<F1Message, MsgError>
    requires { AreFitting (ies_view found.now) }
    ensures { (criticality : ℕ) → IsFromValue (f1_at SUCCESSFUL UE_CONTEXT_SETUP criticality (ies_view found.now)) result }
{
    let uses = [
        Use::Mandatory(ElementName::Ue),
        Use::Mandatory(ElementName::Instance),
        Use::Mandatory(ElementName::Downlinks),
    ];
    if let Some(id) = first_rejected(&uses, found) {
        return Err(MsgError::UnknownIe { id });
    }
    Ok(F1Message::UeContextSetupResponse {
        ue: the_ue(found),
        instance: the_number(found, ElementName::Instance),
        downlinks: the_tunnels(alloc, found, ElementName::Downlinks)?,
    })
}

fn modification_request(found: &[Ie]) -> Result<F1Message, MsgError>
    requires { AreFitting (ies_view found.now) }
    ensures { (criticality : ℕ) → IsFromValue (f1_at INITIATING UE_CONTEXT_MODIFICATION criticality (ies_view found.now)) result }
{
    let uses = [
        Use::Mandatory(ElementName::Ue),
        Use::Mandatory(ElementName::Instance),
        Use::Mandatory(ElementName::Epoch),
    ];
    if let Some(id) = first_rejected(&uses, found) {
        return Err(MsgError::UnknownIe { id });
    }
    Ok(F1Message::UeContextModificationRequest {
        ue: the_ue(found),
        instance: the_number(found, ElementName::Instance),
        epoch: the_number(found, ElementName::Epoch),
    })
}

fn modification_response(alloc: Global, found: &[Ie]) -> Result<F1Message, MsgError>
    requires { AreFitting (ies_view found.now) }
    ensures { (criticality : ℕ) → IsFromValue (f1_at SUCCESSFUL UE_CONTEXT_MODIFICATION criticality (ies_view found.now)) result }
{
    let uses = [
        Use::Mandatory(ElementName::Ue),
        Use::Mandatory(ElementName::Instance),
        Use::Mandatory(ElementName::Downlinks),
    ];
    if let Some(id) = first_rejected(&uses, found) {
        return Err(MsgError::UnknownIe { id });
    }
    Ok(F1Message::UeContextModificationResponse {
        ue: the_ue(found),
        instance: the_number(found, ElementName::Instance),
        downlinks: the_tunnels(alloc, found, ElementName::Downlinks)?,
    })
}

fn release_command(found: &[Ie]) -> Result<F1Message, MsgError>
    requires { AreFitting (ies_view found.now) }
    ensures { (criticality : ℕ) → IsFromValue (f1_at INITIATING UE_CONTEXT_RELEASE criticality (ies_view found.now)) result }
{
    let uses = [
        Use::Mandatory(ElementName::Ue),
        Use::Mandatory(ElementName::Instance),
    ];
    if let Some(id) = first_rejected(&uses, found) {
        return Err(MsgError::UnknownIe { id });
    }
    Ok(F1Message::UeContextReleaseCommand {
        ue: the_ue(found),
        instance: the_number(found, ElementName::Instance),
    })
}

fn release_complete(found: &[Ie]) -> Result<F1Message, MsgError>
    requires { AreFitting (ies_view found.now) }
    ensures { (criticality : ℕ) → IsFromValue (f1_at SUCCESSFUL UE_CONTEXT_RELEASE criticality (ies_view found.now)) result }
{
    let uses = [
        Use::Mandatory(ElementName::Ue),
        Use::Mandatory(ElementName::Instance),
    ];
    if let Some(id) = first_rejected(&uses, found) {
        return Err(MsgError::UnknownIe { id });
    }
    Ok(F1Message::UeContextReleaseComplete {
        ue: the_ue(found),
        instance: the_number(found, ElementName::Instance),
    })
}

fn downlink_transfer(alloc: Global, found: &[Ie]) -> Result<F1Message, MsgError>
    requires { AreFitting (ies_view found.now) }
    ensures { (criticality : ℕ) → IsFromValue (f1_at INITIATING DL_RRC_MESSAGE_TRANSFER criticality (ies_view found.now)) result }
{
    let uses = [
        Use::Mandatory(ElementName::Ue),
        Use::Mandatory(ElementName::Container),
    ];
    if let Some(id) = first_rejected(&uses, found) {
        return Err(MsgError::UnknownIe { id });
    }
    Ok(F1Message::DlRrcMessageTransfer {
        ue: the_ue(found),
        container: the_container(alloc, found)?,
    })
}

fn uplink_transfer(alloc: Global, found: &[Ie]) -> Result<F1Message, MsgError>
    requires { AreFitting (ies_view found.now) }
    ensures { (criticality : ℕ) → IsFromValue (f1_at INITIATING UL_RRC_MESSAGE_TRANSFER criticality (ies_view found.now)) result }
{
    let uses = [
        Use::Mandatory(ElementName::Ue),
        Use::Mandatory(ElementName::Container),
    ];
    if let Some(id) = first_rejected(&uses, found) {
        return Err(MsgError::UnknownIe { id });
    }
    Ok(F1Message::UlRrcMessageTransfer {
        ue: the_ue(found),
        container: the_container(alloc, found)?,
    })
}
