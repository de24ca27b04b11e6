//! Why octets aren't decoded.

use aper_defs::Reason;
use gnb_types::octets::Octets;

/// Why octets aren't decoded.
#[derive(Debug, Drop)]
pub enum DecodeError {
    /// They spell no value of the type. The first wrong field: the number of its first bit, from 0; why it is wrong; and the way to
    /// the value whose type gives it, as `-` for the whole value, else as its steps joined by dots: names of components and
    /// alternatives, `[i]` for a member of a list, counted from 0, `#id` for an information element, and the name of a PDU's outcome.
    Refused {
        bit: u64,
        reason: Reason,
        path: Octets,
    },
    Memory,
}
