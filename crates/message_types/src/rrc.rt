//! The tokens that stand for RRC (TS 38.331): a command, what answers it, and what a terminal says on its way back.

use gnb_types::names::{Gnb, UeId};

/// What a terminal and its CU-CP tell each other, by way of the DU.
#[derive(Clone, Copy, PartialEq, Eq)]
pub enum Token {
    /// To the terminal: access this DU, with this epoch (RRCReconfiguration with synchronisation).
    Command {
        ue: UeId,
        epoch: u32,
        gnb: Gnb,
        du: u8,
    },
    /// From the terminal: it arrived with this epoch (RRCReconfigurationComplete).
    Complete {
        ue: UeId,
        epoch: u32,
    },
    /// From the terminal: it is back at its home DU with this epoch (RRCReestablishmentRequest).
    Reestablish {
        ue: UeId,
        epoch: u32,
    },
    /// To the terminal: this epoch is accepted.
    Accepted {
        ue: UeId,
        epoch: u32,
    },
}
