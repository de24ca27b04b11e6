//! The hop of a bearer from one CU-UP to the next, while its terminal moves between gNBs (TS 38.300, 9.2.3.2.3): what the source
//! puts on the forwarding tunnels, what the target may take and when, and a CU-UP that is both. Nothing here holds memory.
#![tactic(auto)]

mod error;
mod relay;
mod source;
mod target;

pub use error::HopError;
pub use relay::Relay;
pub use source::SourceHop;
pub use target::{TargetHop, TunnelKind};
