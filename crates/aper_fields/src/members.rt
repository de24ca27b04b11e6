//! What an encoder puts around the members of a value, and which types rows give (BASIC-PER aligned, ITU-T X.691).

pub mod heads;
pub mod raw;
pub mod rows;
