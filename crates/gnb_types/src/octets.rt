//! Lists of bytes.

use crate::items::Items;
pub use crate::items::Memory;

/// A list of bytes. Contracts see the list.
pub type Octets = Items<u8>;
