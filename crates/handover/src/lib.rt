//! A handover, an attach or a return as typed states (TS 38.401, 8.9; TS 38.423, 8.2). A call consumes its state, and gives the next one
//! with the messages of the step, or hands the state back. So the signatures show the point of no return: `Commanded` comes from
//! `Frozen::command` and `Attaching::placed` alone, and from `Commanded` there is no way back but that the terminal arrives elsewhere or
//! returns. Nothing here holds memory.
#![tactic(auto)]

mod attaching;
mod attempt;
mod commanded;
mod completing;
mod names;
mod source;
mod steps;
mod target;

pub use attaching::Attaching;
pub use attempt::{Attempt, Awaited, Awaits};
pub use commanded::Commanded;
pub use completing::{Completing, Returning};
pub use names::{MessageName, ModeName, Refusal, Role, Send};
pub use source::{Frozen, Prepared, Preparing};
pub use steps::Steps;
pub use target::{Arrived, Offered, Ready};
