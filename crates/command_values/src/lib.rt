//! The words `encode` and `decode`: each line after a module is one value of a type of it, as JSON or as hexadecimal digits of its
//! octets; it is written in the other form before the next line is read.
#![tactic(auto)]

mod answer;
mod end;
mod lines;
mod run;
mod way;

pub use answer::Wrong;
pub use end::{Stop, ValuesEnd};
pub use run::run_values;
pub use way::Way;
