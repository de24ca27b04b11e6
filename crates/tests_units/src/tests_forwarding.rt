//! Tests of the hops between two CU-UPs.

#[cfg(test)]
mod hops;
