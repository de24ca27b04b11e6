//! The module of an input: its first line is a header, which names a version of the profile or says
//! that a module's text follows. Each word of the program that works with a module takes it here.

mod header;
mod module;
mod stop;
mod text;

pub use header::{ModuleHeader, read_header};
pub use module::{GivenModule, take_module};
pub use stop::ModuleStop;
