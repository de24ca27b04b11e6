//! Scripts without a header, of any word: read line by line, each event applied before the next line is read.

mod end;
mod run;
mod word;

pub use end::{ScriptEnd, StopCause};
pub use run::run_script;
pub use word::{Happening, ScriptWord};
