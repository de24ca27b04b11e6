//! Which row a token of a terminal is (TS 38.331, 5.3.5, 5.3.7), by the state of the terminal, the epoch, and the DU that relays it.

mod received;
mod states;
mod tokens;

pub use tokens::token_received;
