//! Tests of the steps of a CU-UP and of a terminal, between which packets go, by public calls alone.
#![tactic(auto)]

#[cfg(test)]
mod few_messages;
#[cfg(test)]
mod packets;
#[cfg(test)]
mod reasons;
#[cfg(test)]
mod rows;
#[cfg(test)]
mod steps;
pub mod ue;
