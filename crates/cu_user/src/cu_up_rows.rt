//! What a CU-UP keeps, and its rows (TS 37.483, 8.2, 8.3; TS 38.401, 8.9): each is a method of the record, named as in the table of rows.
//! Each says by its contract that it is that row, with messages, containers and PDUs as octets.

pub mod bearers;
mod fitting;
pub mod inputs;
pub mod messages;
pub mod modifying;
pub mod packets;
pub mod record;
pub mod setups;

pub use cu_up_contexts::contexts::placing::PlaceError;
pub use record::CuUpRecord;
