//! Why JSON is no value of a type.

/// What is wrong with a member.
#[derive(Clone, Copy, Debug, PartialEq, Eq)]
pub enum JsonFault {
    /// It isn't of the form that its type has in JSON.
    Shape,
    /// It has the form, and is outside the bounds of its type.
    Range,
}
