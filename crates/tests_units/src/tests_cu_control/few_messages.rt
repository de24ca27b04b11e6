//! A codec of few messages.

ghost use Rattle.std.specs.Prelude.{◌≡◌, IfOk};
ghost use Rattle.unit_messages.specs.Messages.{answer_as};
ghost use Rattle.tests_units.specs.tests_cu_control.FewMessages.{marked, numbered, encoded_f1, encoded_e1, encoded_xn, encoded_core, encoded_token, tunnel, status, received_f1, received_e1, received_xn, received_mark, received_token};

use gnb_types::items::{Items, Memory};
use gnb_types::names::{BearerId, Gnb, NodeId, UeId};
use gnb_types::octets::Octets;
use gnb_types::plans::{Peer, SnStatus, StatusList, Tunnel, TunnelList};
use gnb_types::reasons::DropReason;
use message_types::{CoreMessage, E1Message, F1, F1Message, Token, XnMessage};
use std::alloc::Global;
use unit_messages::{Message, MessageCodec};

/// Of each message its kind, its terminal and its instance, each below 256 in one octet, and a number of some; lists of one bearer. Octets
/// are heard by their count, those of three by their kind too.
pub struct FewMessages;

impl MessageCodec for FewMessages {
    ghost use Rattle.tests_units.specs.tests_cu_control.FewMessages.{few_messages};

    ghost codec = { few_messages };

    fn encode(&self, alloc: Global, message: &Message) -> Result<Octets, Memory> {
        match message {
            Message::F1(message) => encoded_f1(alloc, message),
            Message::E1(message) => encoded_e1(alloc, message),
            Message::Xn(message) => encoded_xn(alloc, message),
            Message::Core(message) => encoded_core(alloc, message),
            Message::Rrc(token) => encoded_token(alloc, token),
        }
    }

    fn read(
        &self,
        alloc: Global,
        _from: NodeId,
        _to: NodeId,
        octets: &[u8],
    ) -> Result<Result<Message, DropReason>, Memory> {
        match octets {
            [_] => Ok(Err(DropReason::Criticality)),
            [kind, ue, instance] => received_mark(alloc, *kind, UeId(*ue), u32::from(*instance)),
            [ue, token, whose, epoch] => {
                let container = Octets::from_slice(alloc, &[*token, *whose, *epoch])?;
                let ue = UeId(*ue);
                Ok(Ok(Message::F1(F1::UlRrcMessageTransfer { ue, container })))
            }
            _ => Ok(Err(DropReason::Undecodable)),
        }
    }

    fn read_token(&self, _alloc: Global, container: &[u8]) -> Result<Option<Token>, Memory> {
        Ok(received_token(container))
    }
}

fn marked(alloc: Global, kind: u8, ue: UeId, instance: u32) -> Result<Octets, Memory>
    ensures { IfOk result (λ octets. octets ≡ marked kind ue instance) }
{
    Octets::from_slice(alloc, &[kind, ue.0, (instance % 256) as u8])
}

fn numbered(alloc: Global, kind: u8, ue: UeId, instance: u32, number: u32) -> Result<Octets, Memory>
    ensures { IfOk result (λ octets. octets ≡ numbered kind ue instance number) }
{
    let instance = (instance % 256) as u8;
    let number = (number % 256) as u8;
    Octets::from_slice(alloc, &[kind, ue.0, instance, number])
}

// ---- what a CU-CP says

fn encoded_token(alloc: Global, token: &Token) -> Result<Octets, Memory>
    ensures { IfOk result (λ octets. octets ≡ encoded_token token.now) }
{
    match token {
        Token::Command { ue, epoch, .. } => marked(alloc, 1, *ue, *epoch),
        Token::Complete { ue, epoch } => marked(alloc, 2, *ue, *epoch),
        Token::Reestablish { ue, epoch } => marked(alloc, 3, *ue, *epoch),
        Token::Accepted { ue, epoch } => marked(alloc, 4, *ue, *epoch),
    }
}

fn encoded_f1(alloc: Global, message: &F1Message) -> Result<Octets, Memory>
    ensures { IfOk result (λ octets. octets ≡ encoded_f1 message.now) }
{
    match message {
        F1::F1SetupResponse { instance } => marked(alloc, 0x11, UeId(0), *instance),
        F1::UeContextSetupRequest {
            ue,
            instance,
            epoch,
            ..
        } => numbered(alloc, 0x12, *ue, *instance, *epoch),
        F1::UeContextModificationRequest {
            ue,
            instance,
            epoch,
        } => numbered(alloc, 0x13, *ue, *instance, *epoch),
        F1::UeContextReleaseCommand { ue, instance } => marked(alloc, 0x14, *ue, *instance),
        F1::DlRrcMessageTransfer { ue, container } => {
            let mut octets = Octets::from_slice(alloc, &[0x15, ue.0])?;
            octets.append(container.as_slice())?;
            Ok(octets)
        }
        F1::F1SetupRequest { .. }
        | F1::UeContextSetupResponse { .. }
        | F1::UeContextModificationResponse { .. }
        | F1::UeContextReleaseComplete { .. }
        | F1::UlRrcMessageTransfer { .. } => Ok(Octets::new(alloc)),
    }
}

fn encoded_e1(alloc: Global, message: &E1Message) -> Result<Octets, Memory>
    ensures { IfOk result (λ octets. octets ≡ encoded_e1 message.now) }
{
    match message {
        E1Message::E1SetupResponse { instance } => marked(alloc, 0x21, UeId(0), *instance),
        E1Message::BearerContextSetupRequest { ue, instance, .. } => {
            marked(alloc, 0x22, *ue, *instance)
        }
        E1Message::BearerContextModificationRequest {
            ue,
            instance,
            mode,
            ..
        } => numbered(alloc, 0x23, *ue, *instance, *mode),
        E1Message::BearerContextReleaseCommand { ue, instance, .. } => {
            marked(alloc, 0x24, *ue, *instance)
        }
        E1Message::E1SetupRequest { .. }
        | E1Message::BearerContextSetupResponse { .. }
        | E1Message::BearerContextSetupFailure { .. }
        | E1Message::BearerContextModificationResponse { .. }
        | E1Message::BearerContextModificationFailure { .. }
        | E1Message::BearerContextReleaseComplete { .. } => Ok(Octets::new(alloc)),
    }
}

fn encoded_xn(alloc: Global, message: &XnMessage) -> Result<Octets, Memory>
    ensures { IfOk result (λ octets. octets ≡ encoded_xn message.now) }
{
    match message {
        XnMessage::HandoverRequest {
            ue,
            instance,
            epoch,
            ..
        } => numbered(alloc, 0x31, *ue, *instance, *epoch),
        XnMessage::SnStatusTransfer { ue, instance, .. } => marked(alloc, 0x34, *ue, *instance),
        XnMessage::HandoverCancel { ue, instance } => marked(alloc, 0x35, *ue, *instance),
        XnMessage::TransportConfirm { ue, instance } => marked(alloc, 0x37, *ue, *instance),
        XnMessage::HandoverRequestAcknowledge { .. }
        | XnMessage::HandoverPreparationFailure { .. }
        | XnMessage::UeContextRelease { .. } => Ok(Octets::new(alloc)),
    }
}

fn encoded_core(alloc: Global, message: &CoreMessage) -> Result<Octets, Memory>
    ensures { IfOk result (λ octets. octets ≡ encoded_core message.now) }
{
    match message {
        CoreMessage::PathSwitchRequest { ue, instance, .. } => marked(alloc, 0x41, *ue, *instance),
        CoreMessage::PathSwitchAcknowledge { .. } => Ok(Octets::new(alloc)),
    }
}

// ---- what it hears

fn tunnel(alloc: Global, teid: u32) -> Result<TunnelList, Memory>
    ensures { IfOk result (λ tunnels. tunnels ≡ tunnel teid) }
{
    let bearer = BearerId(1);
    Items::one(alloc, Tunnel { bearer, teid })
}

fn status(alloc: Global) -> Result<StatusList, Memory>
    ensures { IfOk result (λ statuses. statuses ≡ status) }
{
    let status = SnStatus {
        bearer: BearerId(1),
        dl_next: 0,
        ul_first: 0,
        ul_received: None,
    };
    Items::one(alloc, status)
}

fn received_f1(
    alloc: Global,
    kind: u8,
    ue: UeId,
    instance: u32,
) -> Result<Result<Message, DropReason>, Memory>
    ensures { IfOk result (λ answer. answer_as answer ≡ received_f1 kind ue instance) }
{
    if kind == 0x11 {
        let name = Octets::new(alloc);
        return Ok(Ok(Message::F1(F1::F1SetupRequest { instance, name })));
    }
    if kind == 0x12 {
        let downlinks = tunnel(alloc, 3)?;
        return Ok(Ok(Message::F1(F1::UeContextSetupResponse {
            ue,
            instance,
            downlinks,
        })));
    }
    if kind == 0x13 {
        let downlinks = tunnel(alloc, 3)?;
        return Ok(Ok(Message::F1(F1::UeContextModificationResponse {
            ue,
            instance,
            downlinks,
        })));
    }
    if kind == 0x14 {
        return Ok(Ok(Message::F1(F1::UeContextReleaseComplete { ue, instance })));
    }
    Ok(Err(DropReason::Undecodable))
}

fn received_e1(
    alloc: Global,
    kind: u8,
    ue: UeId,
    instance: u32,
) -> Result<Result<Message, DropReason>, Memory>
    ensures { IfOk result (λ answer. answer_as answer ≡ received_e1 kind ue instance) }
{
    if kind == 0x21 {
        let name = Octets::new(alloc);
        return Ok(Ok(Message::E1(E1Message::E1SetupRequest { instance, name })));
    }
    if kind == 0x22 {
        return Ok(Ok(Message::E1(E1Message::BearerContextSetupResponse {
            ue,
            instance,
            uplinks: tunnel(alloc, 1)?,
            n3: tunnel(alloc, 2)?,
            forward_down: None,
            forward_up: None,
        })));
    }
    if kind == 0x23 {
        return Ok(Ok(Message::E1(E1Message::BearerContextModificationResponse {
            ue,
            instance,
            uplinks: None,
            statuses: Some(status(alloc)?),
        })));
    }
    if kind == 0x24 {
        return Ok(Ok(Message::E1(E1Message::BearerContextReleaseComplete { ue, instance })));
    }
    Ok(Err(DropReason::Undecodable))
}

fn received_xn(
    alloc: Global,
    kind: u8,
    ue: UeId,
    instance: u32,
) -> Result<Result<Message, DropReason>, Memory>
    ensures { IfOk result (λ answer. answer_as answer ≡ received_xn kind ue instance) }
{
    if kind == 0x32 {
        return Ok(Ok(Message::Xn(XnMessage::HandoverRequestAcknowledge {
            ue,
            instance,
            peer: Peer { gnb: Gnb::B, up: 1 },
            forward_down: tunnel(alloc, 5)?,
            forward_up: tunnel(alloc, 6)?,
        })));
    }
    if kind == 0x33 {
        return Ok(Ok(Message::Xn(XnMessage::HandoverPreparationFailure {
            ue,
            instance,
            cause: 1,
        })));
    }
    if kind == 0x35 {
        return Ok(Ok(Message::Xn(XnMessage::HandoverCancel { ue, instance })));
    }
    if kind == 0x37 {
        return Ok(Ok(Message::Xn(XnMessage::TransportConfirm { ue, instance })));
    }
    if kind == 0x41 {
        return Ok(Ok(Message::Core(CoreMessage::PathSwitchAcknowledge { ue, instance })));
    }
    Ok(Err(DropReason::Undecodable))
}

fn received_mark(
    alloc: Global,
    kind: u8,
    ue: UeId,
    instance: u32,
) -> Result<Result<Message, DropReason>, Memory>
    ensures { IfOk result (λ answer. answer_as answer ≡ received_mark kind ue instance) }
{
    if kind < 0x20 {
        return received_f1(alloc, kind, ue, instance);
    }
    if kind < 0x30 {
        return received_e1(alloc, kind, ue, instance);
    }
    received_xn(alloc, kind, ue, instance)
}

fn received_token(container: &[u8]) -> Option<Token>
    ensures { result ≡ received_token container.now }
{
    let [kind, ue, epoch] = container else {
        return None;
    };
    let ue = UeId(*ue);
    let epoch = u32::from(*epoch);
    if *kind == 2 {
        return Some(Token::Complete { ue, epoch });
    }
    if *kind == 3 {
        return Some(Token::Reestablish { ue, epoch });
    }
    None
}
