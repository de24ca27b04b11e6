//! The types of an unacknowledged bearer: events and lines of its run, what a receiving entity hands up, and why it takes no packet.

pub mod error;
pub mod event;
pub mod line;
pub mod out;
pub mod stop;
