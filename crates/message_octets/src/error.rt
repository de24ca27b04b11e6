//! Why octets say no message.

use aper::{DecodeError, Reason};
use gnb_types::octets::Octets;
use message_values::error::MsgError as ValueError;

/// Why octets say no message.
#[derive(Debug, Drop)]
pub enum MsgError {
    /// They spell no value of the type: the first wrong bit, the reason and the way, as `aper::decode` answers them.
    Refused {
        bit: u64,
        reason: Reason,
        path: Octets,
    },
    /// The procedure isn't in the set, or has no such outcome. An alternative of a token, or an outcome of a PDU past its root, that
    /// isn't known has code 0 and criticality 0.
    UnknownProcedure {
        code: u8,
        criticality: u8,
    },
    /// The first information element that isn't known and has criticality reject.
    UnknownIe {
        id: u16,
    },
    Memory,
}

impl From<DecodeError> for MsgError {
    ghost use Rattle.std.specs.Prelude.{◌≡◌};
    ghost use Rattle.message_octets.specs.Answers.{undecoded};

    ghost from_gives = { λ error e. e ≡ undecoded error };

    fn from(error: DecodeError) -> MsgError {
        match error {
            DecodeError::Refused { bit, reason, path } => MsgError::Refused { bit, reason, path },
            DecodeError::Memory => MsgError::Memory,
        }
    }
}

impl From<ValueError> for MsgError {
    ghost use Rattle.std.specs.Prelude.{◌≡◌};
    ghost use Rattle.message_octets.specs.Answers.{unheard};

    ghost from_gives = { λ error e. e ≡ unheard error };

    fn from(error: ValueError) -> MsgError {
        match error {
            ValueError::UnknownProcedure { code, criticality } => {
                MsgError::UnknownProcedure { code, criticality }
            }
            ValueError::UnknownIe { id } => MsgError::UnknownIe { id },
            ValueError::Memory => MsgError::Memory,
        }
    }
}
