//! The downlink of one bearer of a CU-UP: packets wait, get a COUNT, are sent in frames, and are held until they are confirmed
//! (TS 38.323, 5.2.1).

pub mod down;

pub use down::DownSide;
