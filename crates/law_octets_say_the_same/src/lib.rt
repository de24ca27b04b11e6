//! Laws of the run over octets: where units read in octets what is said, as on scripts that move packets down, it prints what the run of
//! messages prints.
//!
//! - `octet_rows`: A unit that reads octets does what a unit does that is told what they say.
//! - `octet_runs`: A run over octets prints what the run of messages prints, where units read in octets what is said.
//! - `octet_answers`: In a run, units make of an item's octets what they make of what it says.
//! - `octet_asks`: A bearer is quiet over octets exactly where it is quiet otherwise.
//! - `units_follow`: Units that answer as their tables do after decoding have the run of the tables.
//! - `plain_units`: Plain units, as the runner has them, have the run of the tables.
//! - `octet_facts`: Proof steps: what stands on links and what units keep is in range, and stays so.
//! - `octet_ranges`: What stands on links and what units keep is in range in runs of packets down.
//! - `octet_downlink_only`: Runs of packets down are the same over octets.
//! - `octet_local`: Units over octets act on what they got; units of any meaning need not.
//! - `octet_downlink`: Plain units over octets deliver downlink packets in order.
#![tactic(auto)]

pub mod octet_answers;
pub mod octet_asks;
pub mod octet_downlink;
pub mod octet_downlink_only;
pub mod octet_facts;
pub mod octet_local;
pub mod octet_ranges;
pub mod octet_rows;
pub mod octet_runs;
pub mod plain_units;
pub mod units_follow;
