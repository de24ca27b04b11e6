//! Laws of the downlink of one bearer's model: every list of orders that keeps what they ask delivers in order, each packet once.
//!
//! - `chain`: A chain of contexts delivers in order over any handovers, with packets forwarded through several.
//! - `path`: The path from a CU-UP to the terminal delivers in order, whatever frames of F1-U are lost, and whenever all is sent again.
//! - `lossy_chain`: A chain of contexts delivers in order where frames of F1-U may be lost.
//! - `received_packets`: A terminal takes a packet that was put for the present radio, whatever else was lost there.
//! - `put_packets`: What is sent after a switch was put for the present radio.
//! - `waiting_frames`: Frames wait on a DU's downlink tunnel, and any of them may be lost: what the DU takes fits on the radio.
//! - `sent_frames`: A CU-UP sends frames to a DU, and any of them may be lost: what it sends fits to what stands between.
#![tactic(auto)]

pub mod chain;
pub mod lossy_chain;
pub mod path;
pub mod put_packets;
pub mod received_packets;
pub mod sent_frames;
pub mod waiting_frames;
