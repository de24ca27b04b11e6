//! What a bearer of a CU-UP does with a packet up that isn't held: an item of an F1-U uplink, or of the hop's uplink tunnel (TS 38.323,
//! 5.2.2; TS 38.300, 9.2.3.2.3).

pub mod taking;
