//! In which states a token is taken.

ghost use Rattle.std.specs.Prelude.{◌≡◌};
ghost use Rattle.unit_defs.specs.CuCp.{is_own_command, may_return, is_too_early, is_ready};
ghost use Rattle.unit_defs.specs.octet_defs.Codec.{octet_way};

use cu_cp_records::control_actions::Scope;
use unit_defs::{AttemptKind, StateName};
use unit_messages::MessageCodec;

/// Whether a terminal was told to go to a DU of this gNB.
pub(crate) fn is_own_command<C: MessageCodec>(
    _at: &Scope<'_, C>,
    state: StateName,
    kind: AttemptKind,
) -> bool
    ensures { result ≡ is_own_command (octet_way C.codec) state kind }
{
    match state {
        StateName::Commanded => match kind {
            AttemptKind::Attach | AttemptKind::BetweenDus => true,
            AttemptKind::BetweenGnbs | AttemptKind::Offer | AttemptKind::Return => false,
        },
        StateName::Idle
        | StateName::Attaching
        | StateName::Preparing
        | StateName::Prepared
        | StateName::Frozen
        | StateName::Returning
        | StateName::Completing
        | StateName::Offered
        | StateName::Ready
        | StateName::Arrived
        | StateName::Serving => false,
    }
}

/// Whether a return is taken.
pub(crate) fn may_return<C: MessageCodec>(
    at: &Scope<'_, C>,
    state: StateName,
    kind: AttemptKind,
) -> bool
    ensures { result ≡ may_return (octet_way C.codec) state kind }
{
    match state {
        StateName::Preparing => match kind {
            AttemptKind::BetweenGnbs => true,
            AttemptKind::Attach
            | AttemptKind::BetweenDus
            | AttemptKind::Offer
            | AttemptKind::Return => false,
        },
        StateName::Frozen => true,
        StateName::Commanded => may_return_on_command(at, kind),
        StateName::Idle
        | StateName::Attaching
        | StateName::Prepared
        | StateName::Returning
        | StateName::Completing
        | StateName::Offered
        | StateName::Ready
        | StateName::Arrived
        | StateName::Serving => false,
    }
}

fn may_return_on_command<C: MessageCodec>(_at: &Scope<'_, C>, kind: AttemptKind) -> bool
    ensures { result ≡ may_return (octet_way C.codec) StateName.Commanded kind }
{
    match kind {
        AttemptKind::BetweenDus | AttemptKind::BetweenGnbs => true,
        AttemptKind::Attach | AttemptKind::Offer | AttemptKind::Return => false,
    }
}

/// Whether a return comes too early.
pub(crate) fn is_too_early<C: MessageCodec>(
    _at: &Scope<'_, C>,
    state: StateName,
    kind: AttemptKind,
) -> bool
    ensures { result ≡ is_too_early (octet_way C.codec) state kind }
{
    match state {
        StateName::Prepared => true,
        StateName::Preparing => match kind {
            AttemptKind::BetweenDus => true,
            AttemptKind::Attach
            | AttemptKind::BetweenGnbs
            | AttemptKind::Offer
            | AttemptKind::Return => false,
        },
        StateName::Idle
        | StateName::Attaching
        | StateName::Frozen
        | StateName::Commanded
        | StateName::Returning
        | StateName::Completing
        | StateName::Offered
        | StateName::Ready
        | StateName::Arrived
        | StateName::Serving => false,
    }
}

/// Whether the target of a handover awaits the terminal.
pub(crate) fn is_ready<C: MessageCodec>(_at: &Scope<'_, C>, state: StateName) -> bool
    ensures { result ≡ is_ready (octet_way C.codec) state }
{
    match state {
        StateName::Ready => true,
        StateName::Idle
        | StateName::Attaching
        | StateName::Preparing
        | StateName::Prepared
        | StateName::Frozen
        | StateName::Commanded
        | StateName::Returning
        | StateName::Completing
        | StateName::Offered
        | StateName::Arrived
        | StateName::Serving => false,
    }
}
