//! The message that is heard in a value.
#![tactic(auto, unfolding(message_defs::specs::Core::core_at))]

ghost use Rattle.std.specs.Prelude.{ℕ, []};
ghost use Rattle.aper_defs.specs.Membership.{Has};
ghost use Rattle.message_defs.specs.profile_defs.Profile.{core_type};
ghost use Rattle.aper_values.specs.Views.{view, ies_view};
ghost use Rattle.message_defs.specs.Core.{core_at, core_from_value};
ghost use Rattle.message_values.specs.Fitting.{AreFitting};
ghost use Rattle.message_values.specs.Reading.{IsFromValue};
ghost use Rattle.message_values.specs.declared.places.TheConstants.{INITIATING, SUCCESSFUL};
ghost use Rattle.core_messages.specs.declared.codes.TheConstants.{PATH_SWITCH};

use crate::codes::PATH_SWITCH;
use aper_values::value::{Ie, Value};
use message_types::CoreMessage;
use message_values::elements::{ElementName, Use};
use message_values::error::MsgError;
use message_values::found::{
    elements_in, first_rejected, the_number, the_peer, the_tunnels, the_ue,
};
use message_values::places::{INITIATING, SUCCESSFUL};
use std::alloc::Global;

/// The message that a value of the PDU says. Information elements that the message doesn't have and additions are passed over.
///
/// # Errors
/// `UnknownProcedure` where the code isn't in the set or has no such outcome; `UnknownIe` for the first information element that the message
/// doesn't have and that has criticality reject (TS 38.413, 10.3); `Memory`.
#[tactic(auto, unfolding(message_defs::specs::Core::core_from_value))]
pub fn from_value(alloc: Global, value: &Value) -> Result<CoreMessage, MsgError>
    requires { Has [] core_type (view value.now) }
    ensures { IsFromValue (core_from_value (view value.now)) result }
{
    match value {
        Value::Pdu {
            outcome,
            code,
            criticality,
            body,
        } => { Ok(from_value_at(alloc, *outcome, *code, *criticality, elements_in(body))?) }
        _ => Err(MsgError::UnknownProcedure {
            code: 0,
            criticality: 0,
        }),
    }
}

/// The message of a procedure's code for an outcome.
fn from_value_at(
    alloc: Global,
    outcome: u32,
    code: u8,
    criticality: u8,
    found: &[Ie],
) -> Result<CoreMessage, MsgError>
    requires { AreFitting (ies_view found.now) }
    ensures { IsFromValue (core_at outcome code criticality (ies_view found.now)) result }
{
    match code {
        PATH_SWITCH => Ok(path_switch(alloc, outcome, criticality, found)?),
        _ => Err(MsgError::UnknownProcedure { code, criticality }),
    }
}

fn path_switch(
    alloc: Global,
    outcome: u32,
    criticality: u8,
    found: &[Ie],
) -> Result<CoreMessage, MsgError>
    requires { AreFitting (ies_view found.now) }
    ensures { IsFromValue (core_at outcome PATH_SWITCH criticality (ies_view found.now)) result }
{
    match outcome {
        INITIATING => path_switch_request(alloc, found),
        SUCCESSFUL => path_switch_acknowledge(found),
        _ => Err(MsgError::UnknownProcedure {
            code: PATH_SWITCH,
            criticality,
        }),
    }
}

fn path_switch_request(alloc: Global, found: &[Ie]) -> Result<CoreMessage, MsgError>
    requires { AreFitting (ies_view found.now) }
    ensures { (criticality : ℕ) → IsFromValue (core_at INITIATING PATH_SWITCH criticality (ies_view found.now)) result }
{
    let uses = [
        Use::Mandatory(ElementName::Ue),
        Use::Mandatory(ElementName::Instance),
        Use::Mandatory(ElementName::Peer),
        Use::Mandatory(ElementName::N3),
    ];
    if let Some(id) = first_rejected(&uses, found) {
        return Err(MsgError::UnknownIe { id });
    }
    Ok(CoreMessage::PathSwitchRequest {
        ue: the_ue(found),
        instance: the_number(found, ElementName::Instance),
        peer: the_peer(found),
        n3: the_tunnels(alloc, found, ElementName::N3)?,
    })
}

fn path_switch_acknowledge(found: &[Ie]) -> Result<CoreMessage, MsgError>
    requires { AreFitting (ies_view found.now) }
    ensures { (criticality : ℕ) → IsFromValue (core_at SUCCESSFUL PATH_SWITCH criticality (ies_view found.now)) result }
{
    let uses = [
        Use::Mandatory(ElementName::Ue),
        Use::Mandatory(ElementName::Instance),
    ];
    if let Some(id) = first_rejected(&uses, found) {
        return Err(MsgError::UnknownIe { id });
    }
    Ok(CoreMessage::PathSwitchAcknowledge {
        ue: the_ue(found),
        instance: the_number(found, ElementName::Instance),
    })
}
