//! What all words of the program share, with the words `check` and `profile`.
//!
//! - `input_lines`: A line of the input is read here, for every word of the program.
//! - `input_module`: The first line names a version of the profile, or says that a module's text follows.
//! - `command_output`: Lines are written, and the statuses that all words share are made.
//! - `command_check`: The word `check` reports whether an input is a header, with a module's text where it says so, and nothing else.
//! - `command_profile`: The word `profile` writes the text of the profile's module.
#![tactic(auto)]

pub mod command_check;
pub mod command_output;
pub mod command_profile;
pub mod input_lines;
pub mod input_module;
