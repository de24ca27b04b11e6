//! The message that is heard in a value.
#![tactic(auto, unfolding(message_defs::specs::E1::e1_at))]

ghost use Rattle.std.specs.Prelude.{◌≡◌, ℕ, []};
ghost use Rattle.aper_defs.specs.Membership.{Has};
ghost use Rattle.message_defs.specs.profile_defs.Profile.{e1_type};
ghost use Rattle.aper_values.specs.Views.{view, ies_view};
ghost use Rattle.message_defs.specs.E1.{e1_at, e1_from_value};
ghost use Rattle.message_values.specs.Fitting.{AreFitting};
ghost use Rattle.message_values.specs.Reading.{IsFromValue};
ghost use Rattle.message_values.specs.declared.places.TheConstants.{INITIATING, SUCCESSFUL, UNSUCCESSFUL};
ghost use Rattle.e1_messages.specs.declared.codes.TheConstants.{E1_SETUP, BEARER_CONTEXT_SETUP, BEARER_CONTEXT_MODIFICATION, BEARER_CONTEXT_RELEASE};

use crate::codes::{
    BEARER_CONTEXT_MODIFICATION, BEARER_CONTEXT_RELEASE, BEARER_CONTEXT_SETUP, E1_SETUP,
};
use aper_values::value::{Ie, Value};
use gnb_types::results::beside;
use message_types::E1Message;
use message_values::elements::{ElementName, Use};
use message_values::error::MsgError;
use message_values::found::{
    any_octet, any_peer, any_statuses, any_tunnels, elements_in, first_rejected, the_flag,
    the_half_word, the_index, the_name, the_number, the_octet, the_sn, the_tunnels, the_ue,
};
use message_values::places::{INITIATING, SUCCESSFUL, UNSUCCESSFUL};
use std::alloc::Global;

/// The message that a value of the PDU says.
#[tactic(auto, unfolding(message_defs::specs::E1::e1_from_value))]
pub fn from_value(alloc: Global, value: &Value) -> Result<E1Message, MsgError>
    requires { Has [] e1_type (view value.now) }
    ensures { IsFromValue (e1_from_value (view value.now)) result }
{
    match value {
        Value::Pdu {
            outcome,
            code,
            criticality,
            body,
        } => { Ok(from_value_at(alloc, *outcome, *code, *criticality, elements_in(body))?) }
        _ => Err(MsgError::UnknownProcedure {
            code: 0,
            criticality: 0,
        }),
    }
}

/// The message of a procedure's code for an outcome.
fn from_value_at(
    alloc: Global,
    outcome: u32,
    code: u8,
    criticality: u8,
    found: &[Ie],
) -> Result<E1Message, MsgError>
    requires { AreFitting (ies_view found.now) }
    ensures { IsFromValue (e1_at outcome code criticality (ies_view found.now)) result }
{
    match code {
        E1_SETUP => setup(alloc, outcome, criticality, found),
        BEARER_CONTEXT_SETUP => context_setup(alloc, outcome, criticality, found),
        BEARER_CONTEXT_MODIFICATION => modification(alloc, outcome, criticality, found),
        BEARER_CONTEXT_RELEASE => release(alloc, outcome, criticality, found),
        _ => Err(MsgError::UnknownProcedure { code, criticality }),
    }
}

fn setup(alloc: Global, outcome: u32, criticality: u8, found: &[Ie]) -> Result<E1Message, MsgError>
    requires { AreFitting (ies_view found.now) }
    ensures { IsFromValue (e1_at outcome E1_SETUP criticality (ies_view found.now)) result }
{
    match outcome {
        INITIATING => setup_request(alloc, found),
        SUCCESSFUL => setup_response(found),
        _ => Err(MsgError::UnknownProcedure {
            code: E1_SETUP,
            criticality,
        }),
    }
}

fn context_setup(
    alloc: Global,
    outcome: u32,
    criticality: u8,
    found: &[Ie],
) -> Result<E1Message, MsgError>
    requires { AreFitting (ies_view found.now) }
    ensures { IsFromValue (e1_at outcome BEARER_CONTEXT_SETUP criticality (ies_view found.now)) result }
{
    match outcome {
        INITIATING => context_setup_request(found),
        SUCCESSFUL => context_setup_response(alloc, found),
        UNSUCCESSFUL => context_setup_failure(found),
        _ => Err(MsgError::UnknownProcedure {
            code: BEARER_CONTEXT_SETUP,
            criticality,
        }),
    }
}

fn modification(
    alloc: Global,
    outcome: u32,
    criticality: u8,
    found: &[Ie],
) -> Result<E1Message, MsgError>
    requires { AreFitting (ies_view found.now) }
    ensures { IsFromValue (e1_at outcome BEARER_CONTEXT_MODIFICATION criticality (ies_view found.now)) result }
{
    match outcome {
        INITIATING => modification_request(alloc, found),
        SUCCESSFUL => modification_response(alloc, found),
        UNSUCCESSFUL => modification_failure(found),
        _ => Err(MsgError::UnknownProcedure {
            code: BEARER_CONTEXT_MODIFICATION,
            criticality,
        }),
    }
}

fn release(
    alloc: Global,
    outcome: u32,
    criticality: u8,
    found: &[Ie],
) -> Result<E1Message, MsgError>
    requires { AreFitting (ies_view found.now) }
    ensures { IsFromValue (e1_at outcome BEARER_CONTEXT_RELEASE criticality (ies_view found.now)) result }
{
    match outcome {
        INITIATING => release_command(found),
        SUCCESSFUL => release_complete(found),
        _ => Err(MsgError::UnknownProcedure {
            code: BEARER_CONTEXT_RELEASE,
            criticality,
        }),
    }
}

fn setup_request(alloc: Global, found: &[Ie]) -> Result<E1Message, MsgError>
    requires { AreFitting (ies_view found.now) }
    ensures { (criticality : ℕ) → IsFromValue (e1_at INITIATING E1_SETUP criticality (ies_view found.now)) result }
{
    let uses = [
        Use::Mandatory(ElementName::Instance),
        Use::Mandatory(ElementName::Name),
    ];
    if let Some(id) = first_rejected(&uses, found) {
        return Err(MsgError::UnknownIe { id });
    }
    Ok(E1Message::E1SetupRequest {
        instance: the_number(found, ElementName::Instance),
        name: the_name(alloc, found)?,
    })
}

fn setup_response(found: &[Ie]) -> Result<E1Message, MsgError>
    requires { AreFitting (ies_view found.now) }
    ensures { (criticality : ℕ) → IsFromValue (e1_at SUCCESSFUL E1_SETUP criticality (ies_view found.now)) result }
{
    let uses = [Use::Mandatory(ElementName::Instance)];
    if let Some(id) = first_rejected(&uses, found) {
        return Err(MsgError::UnknownIe { id });
    }
    Ok(E1Message::E1SetupResponse {
        instance: the_number(found, ElementName::Instance),
    })
}

fn context_setup_request(found: &[Ie]) -> Result<E1Message, MsgError>
    requires { AreFitting (ies_view found.now) }
    ensures { (criticality : ℕ) → IsFromValue (e1_at INITIATING BEARER_CONTEXT_SETUP criticality (ies_view found.now)) result }
{
    let uses = [
        Use::Mandatory(ElementName::Ue),
        Use::Mandatory(ElementName::Instance),
        Use::Mandatory(ElementName::Bearers),
        Use::Mandatory(ElementName::Sn),
        Use::Mandatory(ElementName::Quota),
        Use::Mandatory(ElementName::Forward),
    ];
    if let Some(id) = first_rejected(&uses, found) {
        return Err(MsgError::UnknownIe { id });
    }
    Ok(E1Message::BearerContextSetupRequest {
        ue: the_ue(found),
        instance: the_number(found, ElementName::Instance),
        bearers: the_octet(found, ElementName::Bearers),
        sn: the_sn(found),
        quota: the_half_word(found, ElementName::Quota),
        forward: the_flag(found, ElementName::Forward),
    })
}

fn context_setup_response(alloc: Global, found: &[Ie]) -> Result<E1Message, MsgError>
    requires { AreFitting (ies_view found.now) }
    ensures { (criticality : ℕ) → IsFromValue (e1_at SUCCESSFUL BEARER_CONTEXT_SETUP criticality (ies_view found.now)) result }
{
    let uses = [
        Use::Mandatory(ElementName::Ue),
        Use::Mandatory(ElementName::Instance),
        Use::Mandatory(ElementName::Uplinks),
        Use::Mandatory(ElementName::N3),
        Use::Optional(ElementName::ForwardDown),
        Use::Optional(ElementName::ForwardUp),
    ];
    if let Some(id) = first_rejected(&uses, found) {
        return Err(MsgError::UnknownIe { id });
    }
    let uplinks = the_tunnels(alloc, found, ElementName::Uplinks)?;
    let (n3, uplinks) = beside(the_tunnels(alloc, found, ElementName::N3), uplinks)?;
    let (forward_down, (uplinks, n3)) = beside(
        any_tunnels(alloc, found, ElementName::ForwardDown),
        (uplinks, n3),
    )?;
    let (forward_up, (uplinks, n3, forward_down)) = beside(
        any_tunnels(alloc, found, ElementName::ForwardUp),
        (uplinks, n3, forward_down),
    )?;
    Ok(E1Message::BearerContextSetupResponse {
        ue: the_ue(found),
        instance: the_number(found, ElementName::Instance),
        uplinks,
        n3,
        forward_down,
        forward_up,
    })
}

fn context_setup_failure(found: &[Ie]) -> Result<E1Message, MsgError>
    requires { AreFitting (ies_view found.now) }
    ensures { (criticality : ℕ) → IsFromValue (e1_at UNSUCCESSFUL BEARER_CONTEXT_SETUP criticality (ies_view found.now)) result }
{
    let uses = [
        Use::Mandatory(ElementName::Ue),
        Use::Mandatory(ElementName::Instance),
        Use::Mandatory(ElementName::Cause),
    ];
    if let Some(id) = first_rejected(&uses, found) {
        return Err(MsgError::UnknownIe { id });
    }
    Ok(E1Message::BearerContextSetupFailure {
        ue: the_ue(found),
        instance: the_number(found, ElementName::Instance),
        cause: the_index(found, ElementName::Cause),
    })
}

fn modification_request(alloc: Global, found: &[Ie]) -> Result<E1Message, MsgError>
    requires { AreFitting (ies_view found.now) }
    ensures { (criticality : ℕ) → IsFromValue (e1_at INITIATING BEARER_CONTEXT_MODIFICATION criticality (ies_view found.now)) result }
{
    let uses = [
        Use::Mandatory(ElementName::Ue),
        Use::Mandatory(ElementName::Instance),
        Use::Optional(ElementName::Downlinks),
        Use::Mandatory(ElementName::Mode),
        Use::Optional(ElementName::Peer),
        Use::Optional(ElementName::ForwardDown),
        Use::Optional(ElementName::ForwardUp),
        Use::Optional(ElementName::Statuses),
        Use::Optional(ElementName::Du),
    ];
    if let Some(id) = first_rejected(&uses, found) {
        return Err(MsgError::UnknownIe { id });
    }
    let downlinks = any_tunnels(alloc, found, ElementName::Downlinks)?;
    let (forward_down, downlinks) = beside(
        any_tunnels(alloc, found, ElementName::ForwardDown),
        downlinks,
    )?;
    let (forward_up, (downlinks, forward_down)) = beside(
        any_tunnels(alloc, found, ElementName::ForwardUp),
        (downlinks, forward_down),
    )?;
    let (statuses, (downlinks, forward_down, forward_up)) = beside(
        any_statuses(alloc, found),
        (downlinks, forward_down, forward_up),
    )?;
    Ok(E1Message::BearerContextModificationRequest {
        ue: the_ue(found),
        instance: the_number(found, ElementName::Instance),
        downlinks,
        mode: the_index(found, ElementName::Mode),
        peer: any_peer(found),
        forward_down,
        forward_up,
        statuses,
        du: any_octet(found, ElementName::Du),
    })
}

fn modification_response(alloc: Global, found: &[Ie]) -> Result<E1Message, MsgError>
    requires { AreFitting (ies_view found.now) }
    ensures { (criticality : ℕ) → IsFromValue (e1_at SUCCESSFUL BEARER_CONTEXT_MODIFICATION criticality (ies_view found.now)) result }
{
    let uses = [
        Use::Mandatory(ElementName::Ue),
        Use::Mandatory(ElementName::Instance),
        Use::Optional(ElementName::Uplinks),
        Use::Optional(ElementName::Statuses),
    ];
    if let Some(id) = first_rejected(&uses, found) {
        return Err(MsgError::UnknownIe { id });
    }
    let uplinks = any_tunnels(alloc, found, ElementName::Uplinks)?;
    let (statuses, uplinks) = beside(any_statuses(alloc, found), uplinks)?;
    Ok(E1Message::BearerContextModificationResponse {
        ue: the_ue(found),
        instance: the_number(found, ElementName::Instance),
        uplinks,
        statuses,
    })
}

fn modification_failure(found: &[Ie]) -> Result<E1Message, MsgError>
    requires { AreFitting (ies_view found.now) }
    ensures { (criticality : ℕ) → IsFromValue (e1_at UNSUCCESSFUL BEARER_CONTEXT_MODIFICATION criticality (ies_view found.now)) result }
{
    let uses = [
        Use::Mandatory(ElementName::Ue),
        Use::Mandatory(ElementName::Instance),
        Use::Mandatory(ElementName::Cause),
    ];
    if let Some(id) = first_rejected(&uses, found) {
        return Err(MsgError::UnknownIe { id });
    }
    Ok(E1Message::BearerContextModificationFailure {
        ue: the_ue(found),
        instance: the_number(found, ElementName::Instance),
        cause: the_index(found, ElementName::Cause),
    })
}

fn release_command(found: &[Ie]) -> Result<E1Message, MsgError>
    requires { AreFitting (ies_view found.now) }
    ensures { (criticality : ℕ) → IsFromValue (e1_at INITIATING BEARER_CONTEXT_RELEASE criticality (ies_view found.now)) result }
{
    let uses = [
        Use::Mandatory(ElementName::Ue),
        Use::Mandatory(ElementName::Instance),
        Use::Mandatory(ElementName::Final),
    ];
    if let Some(id) = first_rejected(&uses, found) {
        return Err(MsgError::UnknownIe { id });
    }
    Ok(E1Message::BearerContextReleaseCommand {
        ue: the_ue(found),
        instance: the_number(found, ElementName::Instance),
        is_final: the_flag(found, ElementName::Final),
    })
}

fn release_complete(found: &[Ie]) -> Result<E1Message, MsgError>
    requires { AreFitting (ies_view found.now) }
    ensures { (criticality : ℕ) → IsFromValue (e1_at SUCCESSFUL BEARER_CONTEXT_RELEASE criticality (ies_view found.now)) result }
{
    let uses = [
        Use::Mandatory(ElementName::Ue),
        Use::Mandatory(ElementName::Instance),
    ];
    if let Some(id) = first_rejected(&uses, found) {
        return Err(MsgError::UnknownIe { id });
    }
    Ok(E1Message::BearerContextReleaseComplete {
        ue: the_ue(found),
        instance: the_number(found, ElementName::Instance),
    })
}
