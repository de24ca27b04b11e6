//! Answers that the attempt of a terminal awaits, by its state: each names a row, or none, where the message lacks what the row uses. Where no
//! row is named the answer only closes its request.

mod attaching;
mod closing;
mod copies;
mod moving;
mod offered;
mod preparing;
mod states;
mod switching;

pub use states::{Answered, answer};
