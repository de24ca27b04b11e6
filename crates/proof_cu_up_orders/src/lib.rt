//! Proof steps: each step of a CU-UP is a list of orders of each bearer's model, of its downlink and of its uplink.
//!
//! - `context_orders`: A row of a bearer puts and delivers on this bearer alone; ticks, starts and items of others ask nothing of it.
//! - `context_tests`: A CU-UP asks one thing of a bearer at a time, and tests first that the bearer's state allows it.
//! - `context_rows`: Whatever a CU-UP is given, each bearer is then what its orders make of it.
//! - `chain_rows`: Each row on one bearer does what its orders do to the downlink.
//! - `uplink_rows`: Each row on one bearer does what its orders do to the uplink.
//! - `handover_rows`: Each row of a handover does what its orders do, down and up.
//! - `down_orders`: Each order to a bearer is orders of the bearer's downlink in the run.
//! - `frame_rows`: The frames that a bearer's row puts for its DU are what is sent then.
//! - `sending_contexts`: A context that sends to a DU goes on to do so, whatever happens beside it, unless the radio begins anew.
//! - `orders`: Each order to a bearer is orders of the bearer's uplink in the run.
//! - `context_stands`: A bearer has a hop exactly while it is frozen, whatever the CU-UP is given.
//! - `kept`: What the CU-UP tests itself holds, and the rest is assumed of control; a released bearer delivers nothing more.
//! - `bearer_orders`: What happens to one bearer in a run is orders of its contexts, the terminal, the core, the radio and the DU, one
//!   after another.
//! - `frames_kept`: Whatever is asked of a context, what it sends to a DU may be sent.
//! - `bearer_lists`: The row of an order puts on this bearer's tunnels alone, and moves the lists of its model.
#![tactic(auto)]

pub mod bearer_lists;
pub mod bearer_orders;
pub mod chain_rows;
pub mod context_orders;
pub mod context_rows;
pub mod context_stands;
pub mod context_tests;
pub mod down_orders;
pub mod frame_rows;
pub mod frames_kept;
pub mod handover_rows;
pub mod kept;
pub mod orders;
pub mod sending_contexts;
pub mod uplink_rows;
