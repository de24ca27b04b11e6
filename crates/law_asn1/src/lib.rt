//! Laws of ASN.1 modules: what is read of a text is what its items say.
//!
//! - `text`: A module that is read is written with the items that it was read from.
//! - `names`: The types and assignments of a module refer to what its items alone say that they hold.
//! - `depth`: The items alone say how deep types stand inside one another, as the types do.
#![tactic(auto)]

pub mod depth;
pub mod names;
pub mod text;
