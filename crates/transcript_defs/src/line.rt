//! A line of a text that is judged as a transcript.

use gnb_types::names::{BearerId, Dir, UeId};
use scenario_text::line::OutLine;

/// A line of a transcript, which may come from another program than this one. Beside what `run` can print there are two forms in
/// which a number is larger than any that `run` prints.
#[derive(Drop)]
pub enum TextLine {
    /// A line that `run` can print.
    Printed {
        line: OutLine,
    },
    /// `lost #M N` with N from 2 on: `run` always prints 1.
    LostMore {
        message: u32,
        items: u64,
    },
    /// `outstanding uU bB DIR SPAN W` with W from 2^32 on: `run` prints half the space of its numbers.
    OutstandingWide {
        ue: UeId,
        bearer: BearerId,
        dir: Dir,
        span: u64,
        window: u64,
    },
}
