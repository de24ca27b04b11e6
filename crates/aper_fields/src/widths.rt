//! How long the fields of aligned PER are: the place after them, where they are put from a place on (ITU-T X.691).

pub mod numbers;
pub mod place;
pub mod strings;
