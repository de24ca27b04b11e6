//! Tests of the states of an attach, a handover and a return.

#[cfg(test)]
mod states;
