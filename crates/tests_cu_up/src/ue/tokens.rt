//! A codec of few messages.

ghost use Rattle.std.specs.Prelude.{◌≡◌};
ghost use Rattle.unit_messages.specs.Messages.{answer_as};
ghost use Rattle.tests_cu_up.specs.ue.Tokens.{heard_mark};

use gnb_types::items::Memory;
use gnb_types::names::{Gnb, NodeId, UeId};
use gnb_types::octets::Octets;
use gnb_types::reasons::DropReason;
use message_types::{F1, Token};
use std::alloc::Global;
use unit_messages::{Message, MessageCodec};

/// Tokens in epochs below 256 as aligned PER spells them, commands of gNB A alone, one message of F1AP, and octets that are dropped.
pub struct Tokens;

impl MessageCodec for Tokens {
    ghost use Rattle.tests_cu_up.specs.ue.Tokens.{tokens};

    ghost codec = { tokens };

    fn encode(&self, alloc: Global, message: &Message) -> Result<Octets, Memory> {
        match message {
            Message::Rrc(Token::Complete { epoch, .. }) => {
                Octets::from_slice(alloc, &[0x20, 0, (*epoch % 256) as u8])
            }
            Message::Rrc(Token::Reestablish { epoch, .. }) => {
                Octets::from_slice(alloc, &[0x40, 0, (*epoch % 256) as u8])
            }
            _ => Ok(Octets::new(alloc)),
        }
    }

    fn read(
        &self,
        _alloc: Global,
        _from: NodeId,
        _to: NodeId,
        octets: &[u8],
    ) -> Result<Result<Message, DropReason>, Memory> {
        match octets {
            [_] => Ok(Err(DropReason::Criticality)),
            [_, _] => Ok(Ok(Message::F1(F1::F1SetupResponse { instance: 1 }))),
            [kind, _, epoch] => Ok(heard_mark(*kind, u32::from(*epoch))),
            [ue, _, epoch, place] => Ok(Ok(Message::Rrc(Token::Command {
                ue: UeId(*ue % 16 + 1),
                epoch: u32::from(*epoch),
                gnb: Gnb::A,
                du: *place / 64 % 2 + 1,
            }))),
            _ => Ok(Err(DropReason::Undecodable)),
        }
    }

    fn read_token(&self, _alloc: Global, _container: &[u8]) -> Result<Option<Token>, Memory> {
        Ok(None)
    }
}

fn heard_mark(kind: u8, epoch: u32) -> Result<Message, DropReason>
    ensures { answer_as result ≡ heard_mark kind epoch }
{
    let ue = UeId(1);
    if kind == 0x60 {
        return Ok(Message::Rrc(Token::Accepted { ue, epoch }));
    }
    if kind == 0x20 {
        return Ok(Message::Rrc(Token::Complete { ue, epoch }));
    }
    Err(DropReason::Undecodable)
}
