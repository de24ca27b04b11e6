//! The types of a module as JSON takes them: each with its names followed, the names that JSON shows, and what its set holds.

mod form;

pub use form::{NamedForm, form_of};
