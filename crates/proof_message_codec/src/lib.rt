//! Proof steps of the codec of the profile: what it reads on links, what it spells, and that units can rest on it.
//!
//! - `link_reading`: What readers of links read in octets is what the layouts of links say there.
//! - `codec`: The codec spells each message in one way, and units can rest on it.
#![tactic(auto)]

pub mod codec;
pub mod link_reading;
