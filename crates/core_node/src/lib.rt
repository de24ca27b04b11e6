//! The core (TS 23.501, 5.6; TS 38.413, 8.4.4): it answers a path switch, and keeps where the downlink of each terminal goes.
#![tactic(auto)]

mod messages;
pub mod node;
pub mod paths;

pub use node::CoreNode;
pub use paths::CorePath;
