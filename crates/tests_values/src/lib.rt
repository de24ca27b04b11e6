//! Tests of values by public calls alone: their octets in aligned PER, what is asked at a place, whether they are of their types, how long they are; and their JSON.
#![tactic(auto)]

#[cfg(test)]
mod asked;
#[cfg(test)]
mod cursors;
#[cfg(test)]
mod heads;
pub mod json;
#[cfg(test)]
mod measuring;
#[cfg(test)]
mod strings;
pub mod values;
