//! The rules of a sound transcript.

/// What a line of a transcript, or its end, can break. Where it breaks several rules the first is reported.
#[derive(Clone, Copy, Debug, PartialEq, Eq)]
pub enum Rule {
    /// It isn't a line of a transcript, or it can't stand at its place.
    Form,
    /// What is taken from a link is not what stands there.
    Wire,
    /// The octets of an item have no layout of its link.
    Packet,
    /// A packet or a number isn't the one of the COUNT that the line shows.
    Count,
    /// A delivery isn't of the next COUNT, or the numbers of a quiet bearer are wrong.
    Order,
    /// A packet is put that wasn't offered, or delivered that wasn't received.
    Seen,
    /// A control message isn't the one spelling of what it says.
    Spelling,
    /// The text ends too early.
    End,
}
