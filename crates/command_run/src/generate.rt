//! The word `generate`: a script of so many packets is made, event by event, and each event is applied to a run of the whole base
//! station; then one line is written.

mod end;
mod run;
mod script;
mod word;

pub use end::GenerateEnd;
pub use word::run_generated;
