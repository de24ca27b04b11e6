//! What a CU-CP keeps: the units that are set up, its terminals, and its requests and replies; and what a run looks at of it. Contracts
//! see the record of `unit_defs`.

mod record;

pub use record::ControlRecord;
