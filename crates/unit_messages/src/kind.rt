//! What a message is to the rules of requests and replies.

ghost use Rattle.std.specs.Prelude.{◌≡◌};
ghost use Rattle.unit_defs.specs.Transactions.{kind_of};
ghost use Rattle.unit_messages.specs.Messages.{message_as, kind_as};

use crate::message::Message;
use message_types::{CoreMessage, E1Message, F1, F1Message, XnMessage};

/// A request or a reply, with its terminal (0: none) and its instance; or neither.
#[derive(Clone, Copy)]
pub enum Kind {
    Request { ue: u8, instance: u32 },
    Reply { ue: u8, instance: u32 },
    /// A message that is answered by none, and answers none.
    Transfer { ue: u8 },
}

#[tactic(auto, unfolding(unit_defs::specs::Transactions::kind_of))]
pub(crate) fn kind_of_f1(message: &F1Message) -> Kind
    ensures { kind_as result ≡ kind_of (message_as (Message.F1 message.now)) }
{
    match message {
        F1::F1SetupRequest { instance, .. } => Kind::Request {
            ue: 0,
            instance: *instance,
        },
        F1::F1SetupResponse { instance } => Kind::Reply {
            ue: 0,
            instance: *instance,
        },
        F1::UeContextSetupRequest { ue, instance, .. }
        | F1::UeContextModificationRequest { ue, instance, .. }
        | F1::UeContextReleaseCommand { ue, instance } => Kind::Request {
            ue: ue.0,
            instance: *instance,
        },
        F1::UeContextSetupResponse { ue, instance, .. }
        | F1::UeContextModificationResponse { ue, instance, .. }
        | F1::UeContextReleaseComplete { ue, instance } => Kind::Reply {
            ue: ue.0,
            instance: *instance,
        },
        F1::DlRrcMessageTransfer { ue, .. } | F1::UlRrcMessageTransfer { ue, .. } =>
            Kind::Transfer { ue: ue.0 },
    }
}

#[tactic(auto, unfolding(unit_defs::specs::Transactions::kind_of))]
pub(crate) fn kind_of_e1(message: &E1Message) -> Kind
    ensures { kind_as result ≡ kind_of (message_as (Message.E1 message.now)) }
{
    match message {
        E1Message::E1SetupRequest { instance, .. } => Kind::Request {
            ue: 0,
            instance: *instance,
        },
        E1Message::E1SetupResponse { instance } => Kind::Reply {
            ue: 0,
            instance: *instance,
        },
        E1Message::BearerContextSetupRequest { ue, instance, .. }
        | E1Message::BearerContextModificationRequest { ue, instance, .. }
        | E1Message::BearerContextReleaseCommand { ue, instance, .. } => Kind::Request {
            ue: ue.0,
            instance: *instance,
        },
        E1Message::BearerContextSetupResponse { ue, instance, .. }
        | E1Message::BearerContextSetupFailure { ue, instance, .. }
        | E1Message::BearerContextModificationResponse { ue, instance, .. }
        | E1Message::BearerContextModificationFailure { ue, instance, .. }
        | E1Message::BearerContextReleaseComplete { ue, instance } => Kind::Reply {
            ue: ue.0,
            instance: *instance,
        },
    }
}

#[tactic(auto, unfolding(unit_defs::specs::Transactions::kind_of))]
pub(crate) fn kind_of_xn(message: &XnMessage) -> Kind
    ensures { kind_as result ≡ kind_of (message_as (Message.Xn message.now)) }
{
    match message {
        XnMessage::HandoverRequest { ue, instance, .. }
        | XnMessage::SnStatusTransfer { ue, instance, .. }
        | XnMessage::HandoverCancel { ue, instance }
        | XnMessage::UeContextRelease { ue, instance } => Kind::Request {
            ue: ue.0,
            instance: *instance,
        },
        XnMessage::HandoverRequestAcknowledge { ue, instance, .. }
        | XnMessage::HandoverPreparationFailure { ue, instance, .. }
        | XnMessage::TransportConfirm { ue, instance } => Kind::Reply {
            ue: ue.0,
            instance: *instance,
        },
    }
}

#[tactic(auto, unfolding(unit_defs::specs::Transactions::kind_of))]
pub(crate) fn kind_of_core(message: &CoreMessage) -> Kind
    ensures { kind_as result ≡ kind_of (message_as (Message.Core message.now)) }
{
    match message {
        CoreMessage::PathSwitchRequest { ue, instance, .. } => Kind::Request {
            ue: ue.0,
            instance: *instance,
        },
        CoreMessage::PathSwitchAcknowledge { ue, instance } => Kind::Reply {
            ue: ue.0,
            instance: *instance,
        },
    }
}
