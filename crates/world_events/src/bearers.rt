//! Events of a bearer in a run of the whole base station: a packet is offered, a delivery status is asked for, and whether the bearer
//! is quiet.

pub mod asks;
pub mod offers;
pub mod polls;
pub mod quiet;
