//! Laws of scripts that set terminals up without messages and move packets down: every run of one delivers in order, each packet once.
//!
//! - `downlink_only_rows`: Units pass a bearer's downlink on in order while no control message comes.
//! - `delivers`: A CU-UP and a terminal deliver the packet that they await.
//! - `run_delivers`: In every run the oldest item delivers, where it has the awaited packet and is neither held nor frozen.
//! - `packet_scripts`: Scripts that move packets alone put no control message.
//! - `downlink_only_facts`: Proof steps: what a state has of a bearer's downlink, and when all of it is in order.
//! - `downlink_only_steps`: Proof steps: a CU-UP, a DU and a terminal keep each bearer in order at what they get.
//! - `downlink_only_events`: Proof steps: each event of packets keeps each bearer in order.
//! - `downlink_only_runs`: What a bearer delivers is a prefix of what was offered.
//! - `downlink_only_counts`: Each COUNT on a link is the place of its packet among those offered.
//! - `wires`: In any run each item that is got is the oldest on its link that was neither taken nor lost.
//! - `downlink_only_lines`: Each COUNT that a transcript shows is the place of its packet among those offered.
#![tactic(auto)]

pub mod delivers;
pub mod downlink_only_counts;
pub mod downlink_only_events;
pub mod downlink_only_facts;
pub mod downlink_only_lines;
pub mod downlink_only_rows;
pub mod downlink_only_runs;
pub mod downlink_only_steps;
pub mod packet_scripts;
pub mod run_delivers;
pub mod wires;
