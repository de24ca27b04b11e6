//! The word `duplicate`: a script of events of one bearer with duplication.

mod config;
mod run;

pub use config::DupConfig;
pub use run::run_duplicate;
