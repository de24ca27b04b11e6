//! Why octets aren't decoded.

use aper_defs::Reason;
use aper_frames::Step;

/// Why octets aren't decoded.
#[derive(Debug, Drop)]
pub enum DecodeError<'m> {
    /// They spell no value of the type: the number of the first wrong field's first bit, from 0, why it is wrong, and the way to
    /// the value whose type says so, from the whole value on.
    Refused {
        bit: u64,
        reason: Reason,
        path: Vec<Step<'m>>,
    },
    Memory,
}
