//! A row of a CU-CP is carried out over its record: what it says, in order, over the unit's requests and replies.

mod carrying;
mod terminals;

pub use carrying::{carry_out, put_next};
