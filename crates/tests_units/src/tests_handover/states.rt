//! The way of an attach, of a source and of a target, of a move and of a return, with the messages that the procedure tables name.

use gnb_types::names::{Gnb, NodeId, SnBits, UeId};
use gnb_types::plans::Plan;
use handover::{Attaching, MessageName, Offered, Preparing, Refusal, Returning, Role, Steps};
use message_types::Token;
use std::test::Fail;

/// A goal at this gNB: its first CU-UP, and its second DU.
fn goal(gnb: Gnb) -> Plan {
    Plan {
        ue: UeId(1),
        gnb,
        up: 1,
        du: 2,
        sn: SnBits::Len12,
        bearers: 1,
        quota: 64,
    }
}

/// Whether the first message of a step is this one, to this receiver.
fn begins(steps: &Steps, message: MessageName, to: Role) -> bool {
    match steps.as_slice() {
        [send, ..] => send.message == message && send.to == to,
        [] => false,
    }
}

#[test]
fn an_attach(rt: HostRuntime) -> Result<(), Fail> {
    let (mut state, _) = Attaching::begin(UeId(1), goal(Gnb::A));
    state.sent(MessageName::BearerContextSetupRequest, 7);
    let Ok((mut state, steps)) = state.tunnels(7) else {
        return Err("tunnels".into());
    };
    assert!(rt; begins(&steps, MessageName::UeContextSetupRequest, Role::ServingDu));
    state.sent(MessageName::UeContextSetupRequest, 9);
    let Ok((_, steps)) = state.placed(9) else {
        return Err("placed".into());
    };
    assert!(rt; begins(&steps, MessageName::DlRrcMessageTransfer, Role::ServingDu));
    Ok(())
}

#[test]
fn a_source_past_the_command(rt: HostRuntime) -> Result<(), Fail> {
    let (mut state, _) = Preparing::begin(UeId(1), Gnb::A, 1, goal(Gnb::B));
    state.sent(MessageName::HandoverRequest, 6);
    let Ok((mut state, _)) = state.acknowledged(6) else {
        return Err("acknowledged".into());
    };
    state.sent(MessageName::BearerContextModificationRequest, 2);
    let Ok((state, _)) = state.frozen(2) else {
        return Err("frozen".into());
    };
    let (state, _) = state.command();
    let (state, refusal) = state.cancel();
    assert!(rt; refusal == Refusal::TooLate);
    let Ok((_, steps)) = state.returned(2) else {
        return Err("returned".into());
    };
    assert!(rt;
        begins(
            &steps,
            MessageName::UeContextModificationRequest,
            Role::ServingDu
        )
    );
    Ok(())
}

#[test]
fn a_target(rt: HostRuntime) -> Result<(), Fail> {
    let (mut state, _) = Offered::begin(UeId(1), 2, goal(Gnb::B));
    state.sent(MessageName::BearerContextSetupRequest, 1);
    let Ok((mut state, _)) = state.tunnels(1) else {
        return Err("tunnels".into());
    };
    state.sent(MessageName::UeContextSetupRequest, 1);
    let Ok((_, steps)) = state.placed(1) else {
        return Err("placed".into());
    };
    assert!(rt;
        begins(
            &steps,
            MessageName::HandoverRequestAcknowledge,
            Role::OtherCu
        )
    );
    Ok(())
}

#[test]
fn a_move(rt: HostRuntime) -> Result<(), Fail> {
    let (mut state, _) = Preparing::begin(UeId(1), Gnb::A, 1, goal(Gnb::A));
    state.sent(MessageName::BearerContextModificationRequest, 3);
    let Ok((mut state, _)) = state.uplinks(3) else {
        return Err("uplinks".into());
    };
    state.sent(MessageName::UeContextSetupRequest, 1);
    let Ok((state, _)) = state.placed(1) else {
        return Err("placed".into());
    };
    let (state, _) = state.command();
    let Ok((mut state, _)) = state.arrived(2) else {
        return Err("arrived".into());
    };
    state.sent(MessageName::BearerContextModificationRequest, 4);
    let Ok((next, _)) = state.answered(NodeId::CuUp(Gnb::A, 1), 4) else {
        return Err("answered".into());
    };
    assert!(rt; next.is_none());
    Ok(())
}

#[test]
fn a_return(rt: HostRuntime) -> Result<(), Fail> {
    let (mut state, _) = Returning::begin(UeId(1), 2);
    state.sent(MessageName::UeContextModificationRequest, 1);
    let Ok((mut state, _)) = state.moved(1) else {
        return Err("moved".into());
    };
    state.sent(MessageName::BearerContextModificationRequest, 5);
    let Ok((next, steps)) = state.switched(5) else {
        return Err("switched".into());
    };
    assert!(rt; next.is_none());
    assert!(rt; begins(&steps, MessageName::DlRrcMessageTransfer, Role::ServingDu));
    Ok(())
}

#[test]
fn an_arrival(rt: HostRuntime) -> Result<(), Fail> {
    let (mut state, _) = Offered::begin(UeId(1), 2, goal(Gnb::B));
    state.sent(MessageName::BearerContextSetupRequest, 1);
    let Ok((mut state, _)) = state.tunnels(1) else {
        return Err("tunnels".into());
    };
    state.sent(MessageName::UeContextSetupRequest, 1);
    let Ok((state, _)) = state.placed(1) else {
        return Err("placed".into());
    };
    let token = Token::Complete {
        ue: UeId(1),
        epoch: 2,
    };
    let Ok((mut state, _)) = state.arrived(&token) else {
        return Err("arrived".into());
    };
    state.sent(MessageName::PathSwitchRequest, 1);
    let Ok((state, steps)) = state.path_done(1) else {
        return Err("path".into());
    };
    assert!(rt; begins(&steps, MessageName::UeContextRelease, Role::OtherCu));
    assert!(rt; !state.finished());
    Ok(())
}
