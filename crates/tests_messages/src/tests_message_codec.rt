//! Tests of the codec of the profile: messages of each interface are read and spelled, others are dropped or have no octets.

#[cfg(test)]
mod rows;
