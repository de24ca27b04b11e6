//! Tests of the packet layers and of the packets on each link.
#![tactic(auto)]

pub mod entities;
#[cfg(test)]
mod frames;
#[cfg(test)]
mod gtpu_packets;
#[cfg(test)]
mod links_tests;
#[cfg(test)]
mod pdus;
pub mod tests_links;
pub mod tests_transactions;
