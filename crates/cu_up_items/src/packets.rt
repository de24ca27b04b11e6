//! What a bearer of a CU-UP does with an item of a tunnel that isn't held: packets without and with a number on the way down, status
//! reports and delivery statuses (TS 38.323, 5.2, 5.4.2; TS 38.425, 5.4; TS 38.300, 9.2.3.2).

pub mod confirming;
pub mod passing;
pub mod taking;
