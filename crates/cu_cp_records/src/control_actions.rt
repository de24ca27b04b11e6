//! What a row of a CU-CP says to others, in order, and what it keeps of the terminal then; and the tokens that it says (TS 38.331). An
//! attempt whose epoch would be past the last one tells it in no message: where a command is to tell it all the same, which no run does, the
//! answer is that memory ran out.

pub mod actions;
mod lists;
mod row;
mod tokens;

pub use lists::{two, with_first};
pub use row::{Row, Scope};
pub use tokens::{accepted_action, command_action, other_cu_cp, told_epoch};
