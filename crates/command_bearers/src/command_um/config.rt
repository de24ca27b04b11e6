//! What the words after `um` set.

use gnb_types::names::SnBits;

/// The length of the bearer's sequence numbers, and the ticks of its timer t-Reordering.
#[derive(Clone, Copy, PartialEq, Eq)]
pub struct UmConfig {
    pub sn: SnBits,
    pub ticks: u16,
}
