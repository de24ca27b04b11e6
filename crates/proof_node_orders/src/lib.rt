//! Proof steps: each step of a terminal, a DU and the core is a list of orders of each bearer's model.
//!
//! - `terminal_rows`: Each row of the terminal does what its orders do, up and down.
//! - `du_rows`: Each row of a DU does what its steps do on the way down, and what its orders do up.
//! - `terminal_inputs`: Each input of a terminal is a list of orders of one bearer, up and down.
//! - `terminal_radios`: A terminal puts on its own radio up alone, in the epoch in which it is connected.
//! - `terminal_refusals`: A row that refuses or drops changes nothing, what is of another bearer is no order of this one, and both models
//!   of the downlink receive alike.
//! - `du_inputs`: Each input of a DU is a change of what it has of a bearer, with what it puts for it.
//! - `du_puts`: What a DU puts for a bearer is computed from its input.
//! - `du_steps`: What a DU's inputs change and put for one bearer is steps of the way down, and orders of the uplink.
//! - `core_rows`: A message to the core is an order of one bearer's downlink path.
#![tactic(auto)]

pub mod core_rows;
pub mod du_inputs;
pub mod du_puts;
pub mod du_rows;
pub mod du_steps;
pub mod terminal_inputs;
pub mod terminal_radios;
pub mod terminal_refusals;
pub mod terminal_rows;
