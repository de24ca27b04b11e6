//! What a CU-UP keeps of terminals: their contexts, and the tunnels that end there by TEID (TS 38.401, 6.1.2; TS 37.483, 8.3). Contracts say
//! what each call does to the whole record of a CU-UP, whatever else that keeps.

pub mod contexts;
pub mod ending;
pub mod making;
pub mod orders;
pub mod packets;
pub mod placing;
pub mod tunnels;

pub use crate::bearer_context::{Context, ContextSetup};
pub use contexts::Contexts;
pub use cu_up_items::items::Kind;
