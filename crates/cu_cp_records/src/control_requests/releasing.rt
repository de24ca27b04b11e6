//! Releases at a DU (TS 38.473, 8.3.3), at a CU-UP (TS 37.483, 8.3.3) and at the other gNB (TS 38.423, 8.2.3, 8.2.7).

ghost use Rattle.std.specs.Prelude.{◌≡◌, false};
ghost use Rattle.unit_defs.specs.CuCpRows.{other_cu_cp};

use crate::control_actions::actions::{Action, NO_INSTANCE};
use crate::control_actions::{Scope, other_cu_cp};
use gnb_types::names::NodeId;
use message_types::{E1Message, F1, XnMessage};
use unit_messages::Message;

pub fn du_release<C>(at: &Scope<'_, C>, du: u8, awaited: bool) -> Action
    ensures { result ≡ Action.Ask (NodeId.Du at.now.gnb du)
        (Message.F1 (F1.UeContextReleaseCommand at.now.ue 0)) None awaited }
{
    Action::Ask {
        to: NodeId::Du(at.gnb, du),
        message: Message::F1(F1::UeContextReleaseCommand {
            ue: at.ue,
            instance: NO_INSTANCE,
        }),
        deadline: None,
        awaited,
    }
}

pub fn cu_up_release<C>(at: &Scope<'_, C>, up: u8, is_final: bool, awaited: bool) -> Action
    ensures { result ≡ Action.Ask (NodeId.CuUp at.now.gnb up)
        (Message.E1 (E1Message.BearerContextReleaseCommand at.now.ue 0 is_final)) None awaited }
{
    Action::Ask {
        to: NodeId::CuUp(at.gnb, up),
        message: Message::E1(E1Message::BearerContextReleaseCommand {
            ue: at.ue,
            instance: NO_INSTANCE,
            is_final,
        }),
        deadline: None,
        awaited,
    }
}

pub fn xn_cancel<C>(at: &Scope<'_, C>) -> Action
    ensures { result ≡ Action.Cancel (other_cu_cp at.now)
        (Message.Xn (XnMessage.HandoverCancel at.now.ue 0)) }
{
    Action::Cancel {
        to: other_cu_cp(at),
        message: Message::Xn(XnMessage::HandoverCancel {
            ue: at.ue,
            instance: NO_INSTANCE,
        }),
    }
}

/// The source of a handover is to let the terminal go.
pub fn source_release<C>(at: &Scope<'_, C>) -> Action
    ensures { result ≡ Action.Ask (other_cu_cp at.now)
        (Message.Xn (XnMessage.UeContextRelease at.now.ue 0)) None false }
{
    Action::Ask {
        to: other_cu_cp(at),
        message: Message::Xn(XnMessage::UeContextRelease {
            ue: at.ue,
            instance: NO_INSTANCE,
        }),
        deadline: None,
        awaited: false,
    }
}

/// The confirmation of a request on Xn that has no response of its own.
pub fn transport_confirm<C>(at: &Scope<'_, C>, to: NodeId, instance: u32) -> Action
    ensures { result ≡ Action.Reply to
        (Message.Xn (XnMessage.TransportConfirm at.now.ue instance)) }
{
    Action::Reply {
        to,
        message: Message::Xn(XnMessage::TransportConfirm {
            ue: at.ue,
            instance,
        }),
    }
}
