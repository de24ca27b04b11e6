//! Proof steps of one unit's input: what it numbers, stores, puts and names.
//!
//! - `frames`: The frames that a bearer's downlink puts are numbered one after another.
//! - `tunnel_frames`: The frames on one downlink tunnel are numbered one after another.
//! - `answers`: What holds after an answer, alone, after others, and where a request or a reply is taken.
//! - `count_ranges`: The COUNTs and NR-U numbers that a CU-UP gives are in range.
//! - `count_windows`: What a CU-UP holds as unconfirmed stays in its window.
//! - `receivers`: A receiver stores only what is above what it awaits.
//! - `packets`: A CU-UP puts and delivers only packets that it got or kept.
//! - `node_packets`: A terminal puts only packets that it got or kept; a DU keeps none, and control puts none.
//! - `tunnel_names`: A CU-CP and the core name tunnels for whom these were named to them.
//! - `tunnels`: A CU-UP and a DU put items on their own terminals' tunnels alone; a terminal puts none on a tunnel.
//! - `downlink_names`: A CU-CP has at most one switch to a downlink TEID.
//! - `downlink_grants`: A DU gives a downlink TEID by at most one answer.
#![tactic(auto)]

pub mod answers;
pub mod count_ranges;
pub mod count_windows;
pub mod downlink_grants;
pub mod downlink_names;
pub mod frames;
pub mod node_packets;
pub mod packets;
pub mod receivers;
pub mod tunnel_frames;
pub mod tunnel_names;
pub mod tunnels;
