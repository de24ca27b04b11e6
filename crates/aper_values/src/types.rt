//! The types of a module as an encoder and a decoder take them: each with its names followed, and what its set holds (ITU-T X.680).

mod form;

pub use form::{Form, form_of};
