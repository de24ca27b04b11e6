//! The packets of the links as values: which octets decode on a link and what they say there, and what is written.
#![tactic(auto)]

mod layers;
mod reading;
mod writing;

pub use layers::read_radio;
pub use reading::{
    F1uDownlink, F1uUplink, Forwarded, N3, read_f1u_downlink, read_f1u_uplink,
    read_forwarding_down, read_forwarding_up, read_n3,
};
pub use writing::{
    write_delivery_status, write_end_marker, write_f1u_downlink_packet, write_f1u_downlink_poll,
    write_f1u_downlink_report, write_f1u_uplink_pdu, write_forwarded_fresh,
    write_forwarded_numbered, write_n3,
};
