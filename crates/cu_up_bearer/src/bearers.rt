//! One bearer of a CU-UP (TS 38.401, 6.1.2; TS 38.323, 5.2): what it keeps, what it delivers, and what it gives to the target of a
//! handover (TS 38.300, 9.2.3.2.3).

pub mod bearer;
pub mod forwarding;
pub mod late;
pub mod uplink;

pub use bearer::Bearer;
