//! The word `um`: a script of events of one unacknowledged bearer.

mod config;
mod run;

pub use config::UmConfig;
pub use run::run_um;
