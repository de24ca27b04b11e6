//! What the words after `duplicate` set.

use gnb_types::names::SnBits;

/// The length of the bearer's sequence numbers, and how many of its packets may be unconfirmed or wait.
#[derive(Clone, Copy, PartialEq, Eq)]
pub struct DupConfig {
    pub sn: SnBits,
    pub quota: u16,
}
