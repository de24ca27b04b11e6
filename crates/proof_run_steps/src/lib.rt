//! Proof steps of every run: an event is made of steps, and what each step keeps holds in every state that a run reaches.
//!
//! - `refusals`: A refused event leaves the state as it was.
//! - `steps`: Each event is steps of a few kinds, one after another.
//! - `teids`: A node gives each TEID once, ascending.
//! - `plans`: The plan of a terminal stays for good.
//! - `facts`: What each step keeps of units, the core, control messages and items on links holds in every run.
//! - `plan_facts`: The same of facts that speak of the plans of terminals.
//! - `control`: The same of units, the core and all control messages ever put.
//! - `law_run_links`: An item on a radio is of the radio's terminal, bearer and direction; control messages are at most 1,000,000.
//! - `tunnel_steps`: A step changes a tunnel by the item that it takes, and by its outputs.
//! - `radio_steps`: A step changes one radio as it carries, confirms and loses.
//! - `answerers`: DUs alone answer for downlinks, and CU-UPs alone for bearer contexts.
//! - `receivers`: A receiver stores only what is above what it awaits, in every run.
#![tactic(auto)]

pub mod answerers;
pub mod control;
pub mod facts;
pub mod law_run_links;
pub mod plan_facts;
pub mod plans;
pub mod radio_steps;
pub mod receivers;
pub mod refusals;
pub mod steps;
pub mod teids;
pub mod tunnel_steps;
