//! The turns of a decoder of aligned PER (ITU-T X.691) whose octets come in pieces. What a turn asks is a small group of fields, and a
//! turn that is cut off leaves everything as it was: it is taken again when more octets are there.

mod begin;
mod choice;
mod container;
mod list;
mod message;
mod open;
mod pending;
mod sequence;
mod turn;

pub use pending::{Pending, Stopped};
pub use turn::{Progress, take_turn};
