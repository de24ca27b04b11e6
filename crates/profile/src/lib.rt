//! The profile: the module of the types that units' messages have, as a text in two versions.
#![tactic(auto)]

pub mod profile_module;
pub mod profile_proof_text;
mod text;
mod text_2;
pub mod trees;
pub mod types;
mod version;
pub mod xn;

pub use text::PROFILE_TEXT;
pub use text_2::PROFILE_TEXT_2;
pub use version::Version;
