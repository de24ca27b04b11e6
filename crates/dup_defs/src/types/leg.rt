//! The two legs of a bearer, and which of them carry its packets.

/// A leg: a path of RLC entity and radio that carries PDUs in their order.
#[derive(Clone, Copy, PartialEq, Eq)]
pub enum Leg {
    First,
    Second,
}

/// The legs on which packets are put.
#[derive(Clone, Copy, PartialEq, Eq)]
pub enum Mode {
    /// Each packet goes on both legs: duplication is active.
    Both,
    First,
    Second,
}
