//! The orders by which control reaches one bearer of a CU-UP: a further uplink, switch, freeze, SN status, resume and release
//! (TS 37.483, 8.3; TS 38.300, 9.2.3.2).

pub mod freezing;
pub mod going_on;
pub mod serving;
