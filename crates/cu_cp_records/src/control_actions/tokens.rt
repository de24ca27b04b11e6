//! Tokens for the terminal (TS 38.331, 5.3.5), by way of its serving DU.

ghost use Rattle.std.specs.Prelude.{◌≡◌, IfOk};
ghost use Rattle.unit_defs.specs.CuCpRows.{other_cu_cp, target_gnb, command_action, accepted_action};
ghost use Rattle.unit_defs.specs.octet_defs.Codec.{octet_way};
ghost use Rattle.cu_cp_records.specs.control_actions.Rows.{action_as};

use crate::control_actions::actions::Action;
use crate::control_actions::row::Scope;
use crate::control_contexts::{Attempt, Context};
use gnb_types::items::Memory;
use gnb_types::names::{Gnb, NodeId};
use gnb_types::octets::Octets;
use message_types::{F1, Token};
use unit_defs::AttemptKind;
use unit_messages::{Message, MessageCodec, encoded};

/// The other CU-CP.
pub fn other_cu_cp<C>(at: &Scope<'_, C>) -> NodeId
    ensures { result ≡ other_cu_cp at.now }
{
    match at.gnb {
        Gnb::A => NodeId::CuCp(Gnb::B),
        Gnb::B => NodeId::CuCp(Gnb::A),
    }
}

fn token_action<C>(at: &Scope<'_, C>, context: &Context, container: Octets) -> Action
    ensures { result ≡ Action.Send (NodeId.Du at.now.gnb context.now.du)
        (Message.F1 (F1.DlRrcMessageTransfer at.now.ue container)) }
{
    Action::Send {
        to: NodeId::Du(at.gnb, context.du),
        message: Message::F1(F1::DlRrcMessageTransfer {
            ue: at.ue,
            container,
        }),
    }
}

/// The gNB to which an attempt leads.
fn target_gnb<C: MessageCodec>(at: &Scope<'_, C>, kind: AttemptKind) -> Gnb
    ensures { result ≡ target_gnb (octet_way C.codec) at.now kind }
{
    match kind {
        AttemptKind::BetweenGnbs => match at.gnb {
            Gnb::A => Gnb::B,
            Gnb::B => Gnb::A,
        },
        AttemptKind::Attach | AttemptKind::BetweenDus | AttemptKind::Offer | AttemptKind::Return =>
            { at.gnb }
    }
}

/// An epoch that a message can tell. One past the last epoch is told in no run: its attempt ends before.
pub fn told_epoch(epoch: u64) -> Result<u32, Memory>
    ensures { IfOk result (λ told. told ≡ epoch) }
{
    if epoch > u64::from(u32::MAX) {
        return Err(Memory::too_many());
    }
    Ok(epoch as u32)
}

/// The command of an attempt.
pub fn command_action<C: MessageCodec>(
    at: &Scope<'_, C>,
    context: &Context,
    attempt: &Attempt,
) -> Result<Action, Memory>
    ensures { IfOk result (λ say. action_as say
        ≡ command_action (octet_way C.codec) at.now context.now attempt.now) }
{
    let token = Token::Command {
        ue: at.ue,
        epoch: told_epoch(attempt.epoch)?,
        gnb: target_gnb(at, attempt.kind),
        du: attempt.du,
    };
    let container = encoded(at.alloc, at.codec, Message::Rrc(token))?;
    Ok(token_action(at, context, container))
}

/// The acceptance of an epoch.
pub fn accepted_action<C: MessageCodec>(
    at: &Scope<'_, C>,
    context: &Context,
    epoch: u32,
) -> Result<Action, Memory>
    ensures { IfOk result (λ say. action_as say
        ≡ accepted_action (octet_way C.codec) at.now context.now epoch) }
{
    let token = Token::Accepted { ue: at.ue, epoch };
    let container = encoded(at.alloc, at.codec, Message::Rrc(token))?;
    Ok(token_action(at, context, container))
}
