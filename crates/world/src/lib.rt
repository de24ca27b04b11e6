//! The run of the whole base station: one event after another, over any units.
#![tactic(auto)]

mod happen;
pub mod radios;
pub mod settling;
pub mod stop;
pub mod turns;
pub mod world;
