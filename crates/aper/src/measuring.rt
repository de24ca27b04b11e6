//! Values of types without types inside: whether they are of a type, and where their fields end; and what stands around the members of
//! the others (BASIC-PER aligned, ITU-T X.691).

pub mod bounds;
pub mod contents;
pub mod heads;
pub mod order;
pub mod simple;
