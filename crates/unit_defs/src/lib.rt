//! Definitions alone: what each unit keeps, and what it does on an input. The rows of the procedure tables, one definition each.
//!
//! The names of states are types here, as the units report them.
#![tactic(auto)]

pub mod codec_defs;
pub mod codec_range_defs;
pub mod octet_defs;

/// What a CU-CP does with a terminal. `Idle` stands for no context.
#[derive(Clone, Copy, Debug, PartialEq, Eq)]
pub enum StateName {
    Idle,
    /// An attach is under way.
    Attaching,
    /// A handover was begun: to another DU, or to the other gNB.
    Preparing,
    /// The other gNB is ready, and the own CU-UP is being frozen.
    Prepared,
    /// All is ready for the command.
    Frozen,
    /// The terminal was told to leave. Only its own return brings it back.
    Commanded,
    /// It came back, and its bearers are being switched.
    Returning,
    /// It arrived, and what it left is being released.
    Completing,
    /// The target of a handover, before it is ready.
    Offered,
    /// The target, while the terminal is awaited.
    Ready,
    /// The target, after the terminal arrived.
    Arrived,
    Serving,
}

/// What an attempt is.
#[derive(Clone, Copy, Debug, PartialEq, Eq)]
pub enum AttemptKind {
    Attach,
    /// A handover to another DU of the same gNB.
    BetweenDus,
    /// A handover to the other gNB, at its source.
    BetweenGnbs,
    /// The same, at its target.
    Offer,
    /// A terminal that lost its radio, or gave up a handover, is back at its DU.
    Return,
}

/// Where a terminal stands.
#[derive(Clone, Copy, Debug, PartialEq, Eq)]
pub enum UeState {
    Idle,
    /// It obeyed a command, and left its radio.
    Accessing,
    Connected,
    /// Its radio failed.
    Lost,
    /// It asks for re-establishment.
    Returning,
}

/// What a terminal says again at each tick until it is accepted.
#[derive(Clone, Copy, Debug, PartialEq, Eq)]
pub enum TokenKind {
    Complete,
    Reestablish,
}
