//! Tests of messages and tokens as values: each is written once, and heard again.
#![tactic(auto)]

#[cfg(test)]
mod path_switch;
pub mod tests_message_codec;
pub mod tests_message_octets;
pub mod tests_profile;
#[cfg(test)]
mod tokens;
#[cfg(test)]
mod xn;
