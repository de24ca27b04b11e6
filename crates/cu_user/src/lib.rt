//! The user plane of a central unit (CU-UP; TS 38.401, 6.1.2): each input is one step, which is that of the table of rows; after a step that
//! could not be made it is of no use, and says so at each further call.
#![tactic(auto)]

pub mod cu_up_rows;
pub mod node;

pub use crate::cu_up_rows::PlaceError;
pub use node::CuUser;
