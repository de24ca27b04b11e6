//! What a DU keeps, and its rows (TS 38.473, 8.2, 8.3, 8.4; TS 38.425, 5.4): each is a method of the record, named as in the table of rows.
//! Each says by its contract that it is that row, with messages, containers and PDUs as octets.

pub mod inputs;
pub mod messages;
pub mod packets;
pub mod record;
pub mod relays;
pub mod setups;
pub mod terminals;

pub use record::DuRecord;
