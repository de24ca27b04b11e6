//! A control message of any interface.

ghost use Rattle.std.specs.Prelude.{◌≡◌};
ghost use Rattle.unit_defs.specs.Transactions.{with_instance, kind_of};
ghost use Rattle.unit_messages.specs.Messages.{message_as, kind_as};

use crate::kind::{Kind, kind_of_core, kind_of_e1, kind_of_f1, kind_of_xn};
use message_types::{CoreMessage, E1Message, F1, F1Message, Token, XnMessage};

/// A message of F1AP, E1AP or XnAP, one with the core, or a token of RRC. Containers are octets.
#[derive(Drop)]
pub enum Message {
    F1(F1Message),
    E1(E1Message),
    Xn(XnMessage),
    Core(CoreMessage),
    Rrc(Token),
}

impl Message {
    /// What it is to the rules of requests and replies.
    #[tactic(auto, unfolding(unit_defs::specs::Transactions::kind_of))]
    pub fn kind(&self) -> Kind
        ensures { kind_as result ≡ kind_of (message_as self.now) }
    {
        match self {
            Message::F1(message) => kind_of_f1(message),
            Message::E1(message) => kind_of_e1(message),
            Message::Xn(message) => kind_of_xn(message),
            Message::Core(message) => kind_of_core(message),
            Message::Rrc(_) => Kind::Transfer { ue: 0 },
        }
    }

    /// A request with this instance; another message stays as it is.
    #[tactic(auto, unfolding(unit_defs::specs::Transactions::with_instance))]
    pub fn with_instance(self, instance: u32) -> Message
        ensures { message_as result ≡ with_instance instance (message_as self) }
    {
        match self {
            Message::F1(message) => Message::F1(f1_with_instance(message, instance)),
            Message::E1(message) => Message::E1(e1_with_instance(message, instance)),
            Message::Xn(message) => Message::Xn(xn_with_instance(message, instance)),
            Message::Core(message) => Message::Core(core_with_instance(message, instance)),
            Message::Rrc(token) => Message::Rrc(token),
        }
    }
}

#[tactic(auto, unfolding(unit_defs::specs::Transactions::with_instance))]
fn f1_with_instance(message: F1Message, instance: u32) -> F1Message
    ensures { message_as (Message.F1 result)
        ≡ with_instance instance (message_as (Message.F1 message)) }
{
    match message {
        F1::F1SetupRequest { name, .. } => F1::F1SetupRequest { instance, name },
        F1::F1SetupResponse { instance } => F1::F1SetupResponse { instance },
        F1::UeContextSetupRequest {
            ue,
            epoch,
            uplinks,
            sn,
            peer,
            ..
        } => F1::UeContextSetupRequest {
            ue,
            instance,
            epoch,
            uplinks,
            sn,
            peer,
        },
        F1::UeContextSetupResponse {
            ue,
            instance,
            downlinks,
        } => F1::UeContextSetupResponse {
            ue,
            instance,
            downlinks,
        },
        F1::UeContextModificationRequest { ue, epoch, .. } => F1::UeContextModificationRequest {
            ue,
            instance,
            epoch,
        },
        F1::UeContextModificationResponse {
            ue,
            instance,
            downlinks,
        } => F1::UeContextModificationResponse {
            ue,
            instance,
            downlinks,
        },
        F1::UeContextReleaseCommand { ue, .. } => F1::UeContextReleaseCommand { ue, instance },
        F1::UeContextReleaseComplete { ue, instance } => F1::UeContextReleaseComplete {
            ue,
            instance,
        },
        F1::DlRrcMessageTransfer { ue, container } => F1::DlRrcMessageTransfer { ue, container },
        F1::UlRrcMessageTransfer { ue, container } => F1::UlRrcMessageTransfer { ue, container },
    }
}

#[tactic(auto, unfolding(unit_defs::specs::Transactions::with_instance))]
fn e1_with_instance(message: E1Message, instance: u32) -> E1Message
    ensures { message_as (Message.E1 result)
        ≡ with_instance instance (message_as (Message.E1 message)) }
{
    match message {
        E1Message::E1SetupRequest { name, .. } => E1Message::E1SetupRequest { instance, name },
        E1Message::E1SetupResponse { instance } => E1Message::E1SetupResponse { instance },
        E1Message::BearerContextSetupRequest {
            ue,
            bearers,
            sn,
            quota,
            forward,
            ..
        } => E1Message::BearerContextSetupRequest {
            ue,
            instance,
            bearers,
            sn,
            quota,
            forward,
        },
        E1Message::BearerContextSetupResponse {
            ue,
            instance,
            uplinks,
            n3,
            forward_down,
            forward_up,
        } => E1Message::BearerContextSetupResponse {
            ue,
            instance,
            uplinks,
            n3,
            forward_down,
            forward_up,
        },
        E1Message::BearerContextSetupFailure {
            ue,
            instance,
            cause,
        } => E1Message::BearerContextSetupFailure {
            ue,
            instance,
            cause,
        },
        E1Message::BearerContextModificationRequest {
            ue,
            downlinks,
            mode,
            peer,
            forward_down,
            forward_up,
            statuses,
            du,
            ..
        } => E1Message::BearerContextModificationRequest {
            ue,
            instance,
            downlinks,
            mode,
            peer,
            forward_down,
            forward_up,
            statuses,
            du,
        },
        E1Message::BearerContextModificationResponse {
            ue,
            instance,
            uplinks,
            statuses,
        } => E1Message::BearerContextModificationResponse {
            ue,
            instance,
            uplinks,
            statuses,
        },
        E1Message::BearerContextModificationFailure {
            ue,
            instance,
            cause,
        } => E1Message::BearerContextModificationFailure {
            ue,
            instance,
            cause,
        },
        E1Message::BearerContextReleaseCommand { ue, is_final, .. } =>
            E1Message::BearerContextReleaseCommand {
                ue,
                instance,
                is_final,
            },
        E1Message::BearerContextReleaseComplete { ue, instance } =>
            E1Message::BearerContextReleaseComplete { ue, instance },
    }
}

#[tactic(auto, unfolding(unit_defs::specs::Transactions::with_instance))]
fn xn_with_instance(message: XnMessage, instance: u32) -> XnMessage
    ensures { message_as (Message.Xn result)
        ≡ with_instance instance (message_as (Message.Xn message)) }
{
    match message {
        XnMessage::HandoverRequest {
            ue,
            epoch,
            bearers,
            sn,
            quota,
            peer,
            du,
            origin,
            ..
        } => XnMessage::HandoverRequest {
            ue,
            instance,
            epoch,
            bearers,
            sn,
            quota,
            peer,
            du,
            origin,
        },
        XnMessage::HandoverRequestAcknowledge {
            ue,
            instance,
            peer,
            forward_down,
            forward_up,
        } => XnMessage::HandoverRequestAcknowledge {
            ue,
            instance,
            peer,
            forward_down,
            forward_up,
        },
        XnMessage::HandoverPreparationFailure {
            ue,
            instance,
            cause,
        } => XnMessage::HandoverPreparationFailure {
            ue,
            instance,
            cause,
        },
        XnMessage::SnStatusTransfer { ue, statuses, .. } => XnMessage::SnStatusTransfer {
            ue,
            instance,
            statuses,
        },
        XnMessage::HandoverCancel { ue, .. } => XnMessage::HandoverCancel { ue, instance },
        XnMessage::UeContextRelease { ue, .. } => XnMessage::UeContextRelease { ue, instance },
        XnMessage::TransportConfirm { ue, instance } => XnMessage::TransportConfirm {
            ue,
            instance,
        },
    }
}

#[tactic(auto, unfolding(unit_defs::specs::Transactions::with_instance))]
fn core_with_instance(message: CoreMessage, instance: u32) -> CoreMessage
    ensures { message_as (Message.Core result)
        ≡ with_instance instance (message_as (Message.Core message)) }
{
    match message {
        CoreMessage::PathSwitchRequest { ue, peer, n3, .. } => CoreMessage::PathSwitchRequest {
            ue,
            instance,
            peer,
            n3,
        },
        CoreMessage::PathSwitchAcknowledge { ue, instance } => CoreMessage::PathSwitchAcknowledge {
            ue,
            instance,
        },
    }
}
