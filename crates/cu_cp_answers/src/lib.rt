//! Which row of a CU-CP a received answer or token is.
//!
//! - `control_answers`: An answer to the attempt of a terminal names a row by the attempt's state, or no row where the message lacks what
//!   the row uses.
//! - `control_tokens`: A token of a terminal names a row by the terminal's state, the epoch, and the DU that relays it (TS 38.331, 5.3.5,
//!   5.3.7).
#![tactic(auto)]

pub mod control_answers;
pub mod control_tokens;
