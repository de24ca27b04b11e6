//! What an item of a tunnel comes to at its bearer of a CU-UP: it is read on the tunnel's link, held while the bearer can't take it, or
//! taken (TS 38.300, 9.2.3.2; TS 38.425, 5.4; TS 38.323, 5.2).

pub mod coming;
pub mod holding;
pub mod items;
pub mod taking;

pub use items::{CuUpItem, Kind};
