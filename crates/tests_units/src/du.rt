//! Tests of the contexts of a DU.

#[cfg(test)]
mod packets;
