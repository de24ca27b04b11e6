//! A codec of few messages.

ghost use Rattle.std.specs.Prelude.{◌≡◌, ◌∷◌, ◌++◌, [], IfOk, Ok};
ghost use Rattle.unit_messages.specs.Messages.{answer_as};
ghost use Rattle.tests_units.specs.tests_du_node.FewMessages.{received_token, received_mark, encoded_f1, encoded_reply, encoded_token};
ghost use Rattle.unit_defs.specs.Ways.{f1};
ghost use Rattle.message_types.specs.declared.f1.F1.TheVariants as f1s;
ghost use Rattle.gnb_types.specs.declared.names.SnBits.TheVariants as sizes;
ghost use Rattle.gnb_types.specs.declared.names.Gnb.TheVariants as gnbs;

use gnb_types::items::Memory;
use gnb_types::names::{BearerId, Gnb, NodeId, SnBits, UeId};
use gnb_types::octets::Octets;
use gnb_types::plans::{Peer, Tunnel, TunnelList};
use gnb_types::reasons::DropReason;
use message_types::{F1, F1Message, Token};
use std::alloc::Global;
use unit_messages::{Message, MessageCodec};

/// F1AP and tokens of RRC, each field below 256 in one octet: context setup requests with one uplink to CU-UP 1 of gNB A, commands of
/// gNB A alone, and octets that are dropped. Octets are heard by their count, those of four by their kind too.
pub struct FewMessages;

impl MessageCodec for FewMessages {
    ghost use Rattle.tests_units.specs.tests_du_node.FewMessages.{few_messages};

    ghost codec = { few_messages };

    fn encode(&self, alloc: Global, message: &Message) -> Result<Octets, Memory> {
        match message {
            Message::F1(message) => encoded_f1(alloc, message),
            Message::Rrc(token) => encoded_token(alloc, token),
            Message::E1(_) | Message::Xn(_) | Message::Core(_) => Ok(Octets::new(alloc)),
        }
    }

    fn read(
        &self,
        alloc: Global,
        _from: NodeId,
        _to: NodeId,
        octets: &[u8],
    ) -> Result<Result<Message, DropReason>, Memory> {
        match octets {
            [_] => Ok(Err(DropReason::Criticality)),
            [_, instance] => Ok(Ok(Message::F1(F1::F1SetupResponse {
                instance: u32::from(*instance),
            }))),
            [_, ue, instance] => Ok(Ok(Message::F1(F1::UeContextReleaseCommand {
                ue: UeId(*ue),
                instance: u32::from(*instance),
            }))),
            [kind, ue, number, epoch] => Ok(received_mark(*kind, UeId(*ue), *number, *epoch)),
            [_, ue, instance, epoch, bearer, teid] => {
                let tunnel = Tunnel {
                    bearer: BearerId(*bearer),
                    teid: u32::from(*teid),
                };
                heard_setup(
                    alloc,
                    UeId(*ue),
                    u32::from(*instance),
                    u32::from(*epoch),
                    tunnel,
                )
            }
            [_, ue, _, a, b, c, d] => heard_transfer(alloc, UeId(*ue), &[*a, *b, *c, *d]),
            _ => Ok(Err(DropReason::Undecodable)),
        }
    }

    fn read_token(&self, _alloc: Global, _container: &[u8]) -> Result<Option<Token>, Memory> {
        Ok(None)
    }
}

fn encoded_f1(alloc: Global, message: &F1Message) -> Result<Octets, Memory>
    ensures { IfOk result (λ octets. octets ≡ encoded_f1 message.now) }
{
    match message {
        F1::F1SetupRequest { instance, name } => {
            spelled_with(alloc, &[1, (*instance % 256) as u8], name.as_slice())
        }
        F1::UeContextSetupResponse {
            ue,
            instance,
            downlinks,
        } => encoded_reply(alloc, 18, *ue, *instance, downlinks.as_slice()),
        F1::UeContextModificationResponse {
            ue,
            instance,
            downlinks,
        } => encoded_reply(alloc, 19, *ue, *instance, downlinks.as_slice()),
        F1::UeContextReleaseComplete { ue, instance } => {
            encoded_reply(alloc, 20, *ue, *instance, &[])
        }
        F1::UlRrcMessageTransfer { ue, container } => {
            spelled_with(alloc, &[6, ue.0], container.as_slice())
        }
        F1::F1SetupResponse { .. }
        | F1::UeContextSetupRequest { .. }
        | F1::UeContextModificationRequest { .. }
        | F1::UeContextReleaseCommand { .. }
        | F1::DlRrcMessageTransfer { .. } => Ok(Octets::new(alloc)),
    }
}

fn spelled_with(alloc: Global, head: &[u8], rest: &[u8]) -> Result<Octets, Memory>
    ensures { IfOk result (λ octets. octets ≡ head.now ++ rest.now) }
{
    let mut octets = Octets::from_slice(alloc, head)?;
    octets.append(rest)?;
    Ok(octets)
}

/// A reply with the TEID of the one bearer, if there is one.
fn encoded_reply(
    alloc: Global,
    kind: u8,
    ue: UeId,
    instance: u32,
    tunnels: &[Tunnel],
) -> Result<Octets, Memory>
    ensures { IfOk result (λ octets. octets ≡ encoded_reply kind ue instance tunnels.now) }
{
    let number = (instance % 256) as u8;
    match tunnels {
        [tunnel] => {
            let teid = (tunnel.teid % 256) as u8;
            Octets::from_slice(alloc, &[kind, ue.0, number, tunnel.bearer.0, teid])
        }
        _ => Octets::from_slice(alloc, &[kind, ue.0, number]),
    }
}

fn encoded_token(alloc: Global, token: &Token) -> Result<Octets, Memory>
    ensures { IfOk result (λ octets. octets ≡ encoded_token token.now) }
{
    match token {
        Token::Command { ue, epoch, du, .. } => {
            Octets::from_slice(alloc, &[0, ue.0, (*epoch % 256) as u8, *du])
        }
        Token::Complete { ue, epoch } => {
            Octets::from_slice(alloc, &[0x20, ue.0, (*epoch % 256) as u8, 0])
        }
        Token::Reestablish { ue, epoch } => {
            Octets::from_slice(alloc, &[0x40, ue.0, (*epoch % 256) as u8, 0])
        }
        Token::Accepted { ue, epoch } => {
            Octets::from_slice(alloc, &[0x60, ue.0, (*epoch % 256) as u8, 0])
        }
    }
}

fn received_token(kind: u8, ue: UeId, epoch: u32, du: u8) -> Option<Token>
    ensures { result ≡ received_token kind ue epoch du }
{
    if kind == 0 {
        let gnb = Gnb::A;
        return Some(Token::Command { ue, epoch, gnb, du });
    }
    if kind == 0x20 {
        return Some(Token::Complete { ue, epoch });
    }
    if kind == 0x40 {
        return Some(Token::Reestablish { ue, epoch });
    }
    if kind == 0x60 {
        return Some(Token::Accepted { ue, epoch });
    }
    None
}

/// What four octets say: a modification request, or a token.
fn received_mark(kind: u8, ue: UeId, number: u8, epoch: u8) -> Result<Message, DropReason>
    ensures { answer_as result ≡ received_mark kind ue number epoch }
{
    if kind == 3 {
        return Ok(Message::F1(F1::UeContextModificationRequest {
            ue,
            instance: u32::from(number),
            epoch: u32::from(epoch),
        }));
    }
    match received_token(kind, ue, u32::from(number), epoch) {
        Some(token) => Ok(Message::Rrc(token)),
        None => Err(DropReason::Undecodable),
    }
}

fn heard_setup(
    alloc: Global,
    ue: UeId,
    instance: u32,
    epoch: u32,
    tunnel: Tunnel,
) -> Result<Result<Message, DropReason>, Memory>
    ensures { IfOk result (λ answer. answer_as answer ≡ Ok (f1 (f1s.UeContextSetupRequest ue instance epoch (tunnel ∷ []) sizes.Len12
        (record { gnb = gnbs.A; up = 1 })))) }
{
    let uplinks = TunnelList::from_slice(alloc, &[tunnel])?;
    Ok(Ok(Message::F1(F1::UeContextSetupRequest {
        ue,
        instance,
        epoch,
        uplinks,
        sn: SnBits::Len12,
        peer: Peer { gnb: Gnb::A, up: 1 },
    })))
}

fn heard_transfer(
    alloc: Global,
    ue: UeId,
    octets: &[u8],
) -> Result<Result<Message, DropReason>, Memory>
    ensures { IfOk result (λ answer. answer_as answer ≡ Ok (f1 (f1s.DlRrcMessageTransfer ue octets.now))) }
{
    let container = Octets::from_slice(alloc, octets)?;
    Ok(Ok(Message::F1(F1::DlRrcMessageTransfer { ue, container })))
}
