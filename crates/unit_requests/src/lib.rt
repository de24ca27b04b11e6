//! The requests and replies of a unit (TS 38.401, 8; the class 1 procedures of F1AP, E1AP and XnAP): a request waits while one is open for
//! the same peer and terminal; an open one is put again at each tick; a request of another node is acted on once, and its reply is kept.
//! Contracts see the record of `unit_defs`, with open requests and kept replies as their octets.
#![tactic(auto)]

mod answering;
mod asking;
mod putting;
mod queues;
mod requests;
pub mod setup_requests;
mod waiting;
pub mod waiting_requests;

pub use putting::put;
pub use requests::Requests;
pub use waiting::Waiting;
