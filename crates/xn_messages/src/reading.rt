//! The message that is heard in a value.
#![tactic(auto, unfolding(message_defs::specs::Xn::xn_at))]

ghost use Rattle.std.specs.Prelude.{ℕ, []};
ghost use Rattle.aper_defs.specs.Values.{Options};
ghost use Rattle.aper_defs.specs.Membership.{Has};
ghost use Rattle.message_defs.specs.profile_defs.Profile.{xn_type};
ghost use Rattle.aper_values.specs.Views.{view, ies_view, options_view};
ghost use Rattle.message_defs.specs.Xn.{xn_at, xn_from_value};
ghost use Rattle.message_values.specs.Fitting.{AreFitting};
ghost use Rattle.message_values.specs.Reading.{IsFromValue};
ghost use Rattle.message_values.specs.declared.places.TheConstants.{INITIATING, SUCCESSFUL, UNSUCCESSFUL};
ghost use Rattle.xn_messages.specs.declared.codes.TheConstants.{HANDOVER_PREPARATION, SN_STATUS_TRANSFER, HANDOVER_CANCEL, UE_CONTEXT_RELEASE, TRANSPORT_CONFIRM};

use crate::additions::{additions_in, to_origin};
use crate::codes::{
    HANDOVER_CANCEL, HANDOVER_PREPARATION, SN_STATUS_TRANSFER, TRANSPORT_CONFIRM,
    UE_CONTEXT_RELEASE,
};
use aper_values::value::{Ie, Value};
use message_types::XnMessage;
use message_values::elements::{ElementName, Use};
use message_values::error::MsgError;
use message_values::found::{
    elements_in, first_rejected, the_half_word, the_index, the_number, the_octet, the_peer, the_sn,
    the_statuses, the_tunnels, the_ue,
};
use message_values::places::{INITIATING, SUCCESSFUL, UNSUCCESSFUL};
use std::alloc::Global;

/// The message that a value of the PDU says, in either version of the profile. Information elements that the message doesn't have and
/// additions that aren't named are passed over.
///
/// # Errors
/// `UnknownProcedure` where the code isn't in the set or has no such outcome; `UnknownIe` for the first information element that the message
/// doesn't have and that has criticality reject (TS 38.423, 10.3); `Memory`.
#[tactic(auto, unfolding(message_defs::specs::Xn::xn_from_value))]
pub fn from_value(alloc: Global, value: &Value) -> Result<XnMessage, MsgError>
    requires { (version : ℕ) × Has [] (xn_type version) (view value.now) }
    ensures { IsFromValue (xn_from_value (view value.now)) result }
{
    match value {
        Value::Pdu {
            outcome,
            code,
            criticality,
            body,
        } => {
            let found = elements_in(body);
            let additions = additions_in(body);
            Ok(from_value_at(alloc, *outcome, *code, *criticality, found, additions)?)
        }
        _ => Err(MsgError::UnknownProcedure {
            code: 0,
            criticality: 0,
        }),
    }
}

/// The message of a procedure's code for an outcome.
fn from_value_at(
    alloc: Global,
    outcome: u32,
    code: u8,
    criticality: u8,
    found: &[Ie],
    additions: &[Option<Value>],
) -> Result<XnMessage, MsgError>
    requires { AreFitting (ies_view found.now) }
    ensures { IsFromValue (xn_at outcome code criticality (ies_view found.now) (options_view additions.now)) result }
{
    match code {
        HANDOVER_PREPARATION => preparation(alloc, outcome, criticality, found, additions),
        SN_STATUS_TRANSFER => sn_status(alloc, outcome, criticality, found),
        HANDOVER_CANCEL => cancel(outcome, criticality, found),
        UE_CONTEXT_RELEASE => release(outcome, criticality, found),
        TRANSPORT_CONFIRM => confirm(outcome, criticality, found),
        _ => Err(MsgError::UnknownProcedure { code, criticality }),
    }
}

fn preparation(
    alloc: Global,
    outcome: u32,
    criticality: u8,
    found: &[Ie],
    additions: &[Option<Value>],
) -> Result<XnMessage, MsgError>
    requires { AreFitting (ies_view found.now) }
    ensures { IsFromValue (xn_at outcome HANDOVER_PREPARATION criticality (ies_view found.now) (options_view additions.now)) result }
{
    match outcome {
        INITIATING => handover_request(alloc, found, additions),
        SUCCESSFUL => handover_request_acknowledge(alloc, found),
        UNSUCCESSFUL => handover_preparation_failure(found),
        _ => Err(MsgError::UnknownProcedure {
            code: HANDOVER_PREPARATION,
            criticality,
        }),
    }
}

fn sn_status(
    alloc: Global,
    outcome: u32,
    criticality: u8,
    found: &[Ie],
) -> Result<XnMessage, MsgError>
    requires { AreFitting (ies_view found.now) }
    ensures { (more : Options) → IsFromValue (xn_at outcome SN_STATUS_TRANSFER criticality (ies_view found.now) more) result }
{
    match outcome {
        INITIATING => sn_status_transfer(alloc, found),
        _ => Err(MsgError::UnknownProcedure {
            code: SN_STATUS_TRANSFER,
            criticality,
        }),
    }
}

fn cancel(outcome: u32, criticality: u8, found: &[Ie]) -> Result<XnMessage, MsgError>
    requires { AreFitting (ies_view found.now) }
    ensures { (more : Options) → IsFromValue (xn_at outcome HANDOVER_CANCEL criticality (ies_view found.now) more) result }
{
    match outcome {
        INITIATING => handover_cancel(found),
        _ => Err(MsgError::UnknownProcedure {
            code: HANDOVER_CANCEL,
            criticality,
        }),
    }
}

fn release(outcome: u32, criticality: u8, found: &[Ie]) -> Result<XnMessage, MsgError>
    requires { AreFitting (ies_view found.now) }
    ensures { (more : Options) → IsFromValue (xn_at outcome UE_CONTEXT_RELEASE criticality (ies_view found.now) more) result }
{
    match outcome {
        INITIATING => context_release(found),
        _ => Err(MsgError::UnknownProcedure {
            code: UE_CONTEXT_RELEASE,
            criticality,
        }),
    }
}

fn confirm(outcome: u32, criticality: u8, found: &[Ie]) -> Result<XnMessage, MsgError>
    requires { AreFitting (ies_view found.now) }
    ensures { (more : Options) → IsFromValue (xn_at outcome TRANSPORT_CONFIRM criticality (ies_view found.now) more) result }
{
    match outcome {
        INITIATING => transport_confirm(found),
        _ => Err(MsgError::UnknownProcedure {
            code: TRANSPORT_CONFIRM,
            criticality,
        }),
    }
}

fn handover_request(
    alloc: Global,
    found: &[Ie],
    additions: &[Option<Value>],
) -> Result<XnMessage, MsgError>
    requires { AreFitting (ies_view found.now) }
    ensures { (criticality : ℕ) → IsFromValue (xn_at INITIATING HANDOVER_PREPARATION criticality (ies_view found.now) (options_view additions.now)) result }
{
    let uses = [
        Use::Mandatory(ElementName::Ue),
        Use::Mandatory(ElementName::Instance),
        Use::Mandatory(ElementName::Epoch),
        Use::Mandatory(ElementName::Bearers),
        Use::Mandatory(ElementName::Sn),
        Use::Mandatory(ElementName::Quota),
        Use::Mandatory(ElementName::Peer),
        Use::Mandatory(ElementName::Du),
    ];
    if let Some(id) = first_rejected(&uses, found) {
        return Err(MsgError::UnknownIe { id });
    }
    Ok(XnMessage::HandoverRequest {
        ue: the_ue(found),
        instance: the_number(found, ElementName::Instance),
        epoch: the_number(found, ElementName::Epoch),
        bearers: the_octet(found, ElementName::Bearers),
        sn: the_sn(found),
        quota: the_half_word(found, ElementName::Quota),
        peer: the_peer(found),
        du: the_octet(found, ElementName::Du),
        origin: to_origin(alloc, additions)?,
    })
}

fn handover_request_acknowledge(alloc: Global, found: &[Ie]) -> Result<XnMessage, MsgError>
    requires { AreFitting (ies_view found.now) }
    ensures { (criticality : ℕ) (more : Options) → IsFromValue (xn_at SUCCESSFUL HANDOVER_PREPARATION criticality (ies_view found.now) more) result }
{
    let uses = [
        Use::Mandatory(ElementName::Ue),
        Use::Mandatory(ElementName::Instance),
        Use::Mandatory(ElementName::Peer),
        Use::Mandatory(ElementName::ForwardDown),
        Use::Mandatory(ElementName::ForwardUp),
    ];
    if let Some(id) = first_rejected(&uses, found) {
        return Err(MsgError::UnknownIe { id });
    }
    Ok(XnMessage::HandoverRequestAcknowledge {
        ue: the_ue(found),
        instance: the_number(found, ElementName::Instance),
        peer: the_peer(found),
        forward_down: the_tunnels(alloc, found, ElementName::ForwardDown)?,
        forward_up: the_tunnels(alloc, found, ElementName::ForwardUp)?,
    })
}

fn handover_preparation_failure(found: &[Ie]) -> Result<XnMessage, MsgError>
    requires { AreFitting (ies_view found.now) }
    ensures { (criticality : ℕ) (more : Options) → IsFromValue (xn_at UNSUCCESSFUL HANDOVER_PREPARATION criticality (ies_view found.now) more) result }
{
    let uses = [
        Use::Mandatory(ElementName::Ue),
        Use::Mandatory(ElementName::Instance),
        Use::Mandatory(ElementName::Cause),
    ];
    if let Some(id) = first_rejected(&uses, found) {
        return Err(MsgError::UnknownIe { id });
    }
    Ok(XnMessage::HandoverPreparationFailure {
        ue: the_ue(found),
        instance: the_number(found, ElementName::Instance),
        cause: the_index(found, ElementName::Cause),
    })
}

fn sn_status_transfer(alloc: Global, found: &[Ie]) -> Result<XnMessage, MsgError>
    requires { AreFitting (ies_view found.now) }
    ensures { (criticality : ℕ) (more : Options) → IsFromValue (xn_at INITIATING SN_STATUS_TRANSFER criticality (ies_view found.now) more) result }
{
    let uses = [
        Use::Mandatory(ElementName::Ue),
        Use::Mandatory(ElementName::Instance),
        Use::Mandatory(ElementName::Statuses),
    ];
    if let Some(id) = first_rejected(&uses, found) {
        return Err(MsgError::UnknownIe { id });
    }
    Ok(XnMessage::SnStatusTransfer {
        ue: the_ue(found),
        instance: the_number(found, ElementName::Instance),
        statuses: the_statuses(alloc, found)?,
    })
}

fn handover_cancel(found: &[Ie]) -> Result<XnMessage, MsgError>
    requires { AreFitting (ies_view found.now) }
    ensures { (criticality : ℕ) (more : Options) → IsFromValue (xn_at INITIATING HANDOVER_CANCEL criticality (ies_view found.now) more) result }
{
    let uses = [
        Use::Mandatory(ElementName::Ue),
        Use::Mandatory(ElementName::Instance),
    ];
    if let Some(id) = first_rejected(&uses, found) {
        return Err(MsgError::UnknownIe { id });
    }
    Ok(XnMessage::HandoverCancel {
        ue: the_ue(found),
        instance: the_number(found, ElementName::Instance),
    })
}

fn context_release(found: &[Ie]) -> Result<XnMessage, MsgError>
    requires { AreFitting (ies_view found.now) }
    ensures { (criticality : ℕ) (more : Options) → IsFromValue (xn_at INITIATING UE_CONTEXT_RELEASE criticality (ies_view found.now) more) result }
{
    let uses = [
        Use::Mandatory(ElementName::Ue),
        Use::Mandatory(ElementName::Instance),
    ];
    if let Some(id) = first_rejected(&uses, found) {
        return Err(MsgError::UnknownIe { id });
    }
    Ok(XnMessage::UeContextRelease {
        ue: the_ue(found),
        instance: the_number(found, ElementName::Instance),
    })
}

fn transport_confirm(found: &[Ie]) -> Result<XnMessage, MsgError>
    requires { AreFitting (ies_view found.now) }
    ensures { (criticality : ℕ) (more : Options) → IsFromValue (xn_at INITIATING TRANSPORT_CONFIRM criticality (ies_view found.now) more) result }
{
    let uses = [
        Use::Mandatory(ElementName::Ue),
        Use::Mandatory(ElementName::Instance),
    ];
    if let Some(id) = first_rejected(&uses, found) {
        return Err(MsgError::UnknownIe { id });
    }
    Ok(XnMessage::TransportConfirm {
        ue: the_ue(found),
        instance: the_number(found, ElementName::Instance),
    })
}
