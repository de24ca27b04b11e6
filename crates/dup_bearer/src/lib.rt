//! One downlink bearer with PDCP duplication over two legs, event by event: the transmitting entity, its legs, and the receiving entity.
#![tactic(auto)]

pub mod bearer;
pub mod dup_pdcp;
mod fault;
pub mod legs;
mod lines;

pub use bearer::Bearer;
pub use fault::DupFault;
