//! A token that was heard.

ghost use Rattle.std.specs.Prelude.{◌≡◌};
ghost use Rattle.unit_defs.specs.CuCp.{is_complete, is_reestablish, is_epoch};
ghost use Rattle.unit_defs.specs.octet_defs.Codec.{octet_way};

use cu_cp_records::control_actions::Scope;
use gnb_types::names::NodeId;
use message_types::Token;
use unit_messages::MessageCodec;

/// A token with an epoch, and who relayed it.
#[derive(Clone, Copy)]
pub(crate) struct Received {
    pub from: NodeId,
    pub token: Token,
    pub epoch: u32,
}

pub(crate) fn is_complete<C: MessageCodec>(_at: &Scope<'_, C>, token: Token) -> bool
    ensures { result ≡ is_complete (octet_way C.codec) token }
{
    match token {
        Token::Complete { .. } => true,
        Token::Command { .. } | Token::Reestablish { .. } | Token::Accepted { .. } => false,
    }
}

pub(crate) fn is_reestablish<C: MessageCodec>(_at: &Scope<'_, C>, token: Token) -> bool
    ensures { result ≡ is_reestablish (octet_way C.codec) token }
{
    match token {
        Token::Reestablish { .. } => true,
        Token::Command { .. } | Token::Complete { .. } | Token::Accepted { .. } => false,
    }
}

/// Whether an epoch is this many more than the one that was accepted last.
pub(crate) fn is_epoch<C: MessageCodec>(
    _at: &Scope<'_, C>,
    accepted: Option<u32>,
    more: u32,
    epoch: u32,
) -> bool
    ensures { result ≡ is_epoch (octet_way C.codec) accepted more epoch }
{
    match accepted {
        Some(accepted) => u64::from(accepted) + u64::from(more) == u64::from(epoch),
        None => false,
    }
}
