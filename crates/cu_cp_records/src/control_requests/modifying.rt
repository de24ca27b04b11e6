//! Modifications of the bearers at a CU-UP (TS 37.483, 8.3.2), by their modes.

ghost use Rattle.std.specs.Prelude.{◌≡◌, true, false};
ghost use Rattle.unit_defs.specs.Messages.{mode_uplinks, mode_switch, mode_freeze, mode_status, mode_resume};

use crate::control_actions::Scope;
use crate::control_actions::actions::{Action, NO_INSTANCE};
use crate::control_contexts::Context;
use gnb_types::names::NodeId;
use gnb_types::plans::{Peer, StatusList, TunnelList};
use message_types::E1Message;
use unit_messages::Message;

// The modes of the profile's enumeration.
const UPLINKS: u32 = 0;

const SWITCH: u32 = 1;

const FREEZE: u32 = 2;

const STATUS: u32 = 3;

const RESUME: u32 = 4;

pub fn uplinks_action<C>(at: &Scope<'_, C>, context: &Context) -> Action
    ensures { result ≡ Action.Ask (NodeId.CuUp at.now.gnb context.now.up)
        (Message.E1 (E1Message.BearerContextModificationRequest at.now.ue 0 None mode_uplinks None None
        None None None)) None true }
{
    Action::Ask {
        to: NodeId::CuUp(at.gnb, context.up),
        message: Message::E1(E1Message::BearerContextModificationRequest {
            ue: at.ue,
            instance: NO_INSTANCE,
            downlinks: None,
            mode: UPLINKS,
            peer: None,
            forward_down: None,
            forward_up: None,
            statuses: None,
            du: None,
        }),
        deadline: None,
        awaited: true,
    }
}

pub fn switch_action<C>(at: &Scope<'_, C>, context: &Context, downlinks: TunnelList) -> Action
    ensures { result ≡ Action.Ask (NodeId.CuUp at.now.gnb context.now.up)
        (Message.E1 (E1Message.BearerContextModificationRequest at.now.ue 0 (Some downlinks) mode_switch
        None None None None (Some context.now.du))) None true }
{
    Action::Ask {
        to: NodeId::CuUp(at.gnb, context.up),
        message: Message::E1(E1Message::BearerContextModificationRequest {
            ue: at.ue,
            instance: NO_INSTANCE,
            downlinks: Some(downlinks),
            mode: SWITCH,
            peer: None,
            forward_down: None,
            forward_up: None,
            statuses: None,
            du: Some(context.du),
        }),
        deadline: None,
        awaited: true,
    }
}

pub fn freeze_action<C>(
    at: &Scope<'_, C>,
    context: &Context,
    peer: Peer,
    forward_down: TunnelList,
    forward_up: TunnelList,
) -> Action
    ensures { result ≡ Action.Ask (NodeId.CuUp at.now.gnb context.now.up)
        (Message.E1 (E1Message.BearerContextModificationRequest at.now.ue 0 None mode_freeze (Some peer)
        (Some forward_down) (Some forward_up) None None)) None true }
{
    Action::Ask {
        to: NodeId::CuUp(at.gnb, context.up),
        message: Message::E1(E1Message::BearerContextModificationRequest {
            ue: at.ue,
            instance: NO_INSTANCE,
            downlinks: None,
            mode: FREEZE,
            peer: Some(peer),
            forward_down: Some(forward_down),
            forward_up: Some(forward_up),
            statuses: None,
            du: None,
        }),
        deadline: None,
        awaited: true,
    }
}

pub fn status_action<C>(at: &Scope<'_, C>, context: &Context, statuses: StatusList) -> Action
    ensures { result ≡ Action.Ask (NodeId.CuUp at.now.gnb context.now.up)
        (Message.E1 (E1Message.BearerContextModificationRequest at.now.ue 0 None mode_status None None
        None (Some statuses) None)) None false }
{
    Action::Ask {
        to: NodeId::CuUp(at.gnb, context.up),
        message: Message::E1(E1Message::BearerContextModificationRequest {
            ue: at.ue,
            instance: NO_INSTANCE,
            downlinks: None,
            mode: STATUS,
            peer: None,
            forward_down: None,
            forward_up: None,
            statuses: Some(statuses),
            du: None,
        }),
        deadline: None,
        awaited: false,
    }
}

pub fn resume_action<C>(at: &Scope<'_, C>, context: &Context) -> Action
    ensures { result ≡ Action.Ask (NodeId.CuUp at.now.gnb context.now.up)
        (Message.E1 (E1Message.BearerContextModificationRequest at.now.ue 0 None mode_resume None None
        None None None)) None false }
{
    Action::Ask {
        to: NodeId::CuUp(at.gnb, context.up),
        message: Message::E1(E1Message::BearerContextModificationRequest {
            ue: at.ue,
            instance: NO_INSTANCE,
            downlinks: None,
            mode: RESUME,
            peer: None,
            forward_down: None,
            forward_up: None,
            statuses: None,
            du: None,
        }),
        deadline: None,
        awaited: false,
    }
}
