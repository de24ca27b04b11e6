//! The control plane of the central unit (TS 38.401, 6.1.2): `CuControl` takes control messages as octets, orders and ticks, and gives what
//! the procedure tables say.
#![tactic(auto)]

mod asked;
mod carrying;
mod control;
mod messages;
mod orders;
mod replies;
pub mod steps;
mod ticks;
mod tokens;

pub use control::CuControl;
