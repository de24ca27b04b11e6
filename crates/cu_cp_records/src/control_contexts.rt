//! What a CU-CP keeps of a terminal (TS 38.401, 6.1.2): its context, and the attempt that is under way. Contracts see the records of
//! `unit_defs`.

mod attempt;
mod context;
mod nodes;

pub use attempt::{Attempt, Awaited};
pub use context::{Context, Terminal};
pub use nodes::{copy_tunnels, has_node, same_node};
