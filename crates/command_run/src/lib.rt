//! The word `run` over any units: a script of events is read line by line, each event is applied before the next line is read, and
//! what it gives is written.
#![tactic(auto)]

mod end;
pub mod generate;
mod run;
mod script;

pub use end::RunEnd;
pub use run::run_script;
