//! The word `check`: an input is checked that is to be a header, with the text of a module where it says so, and
//! nothing else; what it is is written.

mod end;
mod input;
mod module;
mod report;

pub use end::CheckEnd;
pub use input::CheckedModule;
pub use module::check_module;
pub use report::check_input;
