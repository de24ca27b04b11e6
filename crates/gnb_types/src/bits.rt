//! Lists of truth values.

use crate::items::Items;

/// A list of truth values, as the bits of a status report before they are packed into octets. Contracts see the list.
pub type Bits = Items<bool>;
