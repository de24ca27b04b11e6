//! Why octets are no spelling.

/// What is wrong with a field.
#[derive(Clone, Copy, Debug, PartialEq, Eq)]
pub enum Reason {
    /// It passes the last octet.
    Truncated = 1,
    /// A bit of a pad is 1.
    Padding = 2,
    /// A number is above its range.
    Range = 3,
    /// There is a shorter form of the same.
    NotMinimal = 4,
    /// No alternative, name or criticality has this index.
    Index = 5,
    /// No value has this length.
    Length = 6,
    /// No character of PrintableString.
    Character = 7,
    /// It passes the end of an open type around it.
    Overrun = 8,
    /// Octets are left after the last field.
    Tail = 9,
    /// A mandatory information element is not there.
    Required = 10,
    /// An information element is not in the order of its set.
    Order = 11,
    /// It passes the greatest length of an encoding.
    TooLong = 12,
    /// No addition is there.
    EmptyAdditions = 13,
}
