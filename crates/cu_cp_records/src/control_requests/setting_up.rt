//! A terminal's context at a CU-UP (TS 37.483, 8.3.1) and at a DU (TS 38.473, 8.3.1, 8.3.4), and its path from the core.

ghost use Rattle.std.specs.Prelude.{◌≡◌, true, IfOk};

use crate::control_actions::Scope;
use crate::control_actions::actions::{Action, NO_INSTANCE};
use crate::control_contexts::{Attempt, Context, copy_tunnels};
use gnb_types::items::Memory;
use gnb_types::names::NodeId;
use gnb_types::plans::{Peer, TunnelList};
use message_types::{CoreMessage, E1Message, F1};
use unit_messages::Message;

pub fn bearer_setup<C>(at: &Scope<'_, C>, context: &Context, forward: bool) -> Action
    ensures { result ≡ Action.Ask (NodeId.CuUp at.now.gnb context.now.up)
        (Message.E1 (E1Message.BearerContextSetupRequest at.now.ue 0 context.now.bearers
        context.now.sn context.now.quota forward)) None true }
{
    Action::Ask {
        to: NodeId::CuUp(at.gnb, context.up),
        message: Message::E1(E1Message::BearerContextSetupRequest {
            ue: at.ue,
            instance: NO_INSTANCE,
            bearers: context.bearers,
            sn: context.sn,
            quota: context.quota,
            forward,
        }),
        deadline: None,
        awaited: true,
    }
}

pub fn du_setup<C>(
    at: &Scope<'_, C>,
    context: &Context,
    du: u8,
    epoch: u32,
    uplinks: TunnelList,
) -> Action
    ensures { result ≡ Action.Ask (NodeId.Du at.now.gnb du)
        (Message.F1 (F1.UeContextSetupRequest at.now.ue 0 epoch uplinks context.now.sn
        (record { gnb = at.now.gnb; up = context.now.up }))) None true }
{
    Action::Ask {
        to: NodeId::Du(at.gnb, du),
        message: Message::F1(F1::UeContextSetupRequest {
            ue: at.ue,
            instance: NO_INSTANCE,
            epoch,
            uplinks,
            sn: context.sn,
            peer: Peer {
                gnb: at.gnb,
                up: context.up,
            },
        }),
        deadline: None,
        awaited: true,
    }
}

pub fn du_modify<C>(at: &Scope<'_, C>, du: u8, epoch: u32) -> Action
    ensures { result ≡ Action.Ask (NodeId.Du at.now.gnb du)
        (Message.F1 (F1.UeContextModificationRequest at.now.ue 0 epoch)) None true }
{
    Action::Ask {
        to: NodeId::Du(at.gnb, du),
        message: Message::F1(F1::UeContextModificationRequest {
            ue: at.ue,
            instance: NO_INSTANCE,
            epoch,
        }),
        deadline: None,
        awaited: true,
    }
}

/// The path from the core is to end at the CU-UP of this context, with the tunnels of the attempt.
pub fn path_switch<C>(
    at: &Scope<'_, C>,
    context: &Context,
    attempt: &Attempt,
) -> Result<Action, Memory>
    ensures { IfOk result (λ say. say ≡ Action.Ask NodeId.Core
        (Message.Core (CoreMessage.PathSwitchRequest at.now.ue 0
        (record { gnb = at.now.gnb; up = context.now.up }) attempt.now.n3)) None true) }
{
    let n3 = copy_tunnels(at.alloc, &attempt.n3)?;
    Ok(Action::Ask {
        to: NodeId::Core,
        message: Message::Core(CoreMessage::PathSwitchRequest {
            ue: at.ue,
            instance: NO_INSTANCE,
            peer: Peer {
                gnb: at.gnb,
                up: context.up,
            },
            n3,
        }),
        deadline: None,
        awaited: true,
    })
}
