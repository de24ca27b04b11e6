//! Values of types, as the one spelling has them (BASIC-PER aligned, ITU-T X.691).

pub mod simple;
