//! Why octets are JSON of no value.

use gnb_types::octets::Octets;

/// Why octets are JSON of no value of a type. A path is the way to the member that the type refuses first, as `-` for the whole value,
/// else as its steps joined by dots: names of components and alternatives, `[i]` for a member of a list, counted from 0, `#id` for an
/// information element, and the name of a PDU's outcome.
#[derive(Debug, Drop)]
pub enum JsonError {
    /// They are no JSON.
    NotJson,
    /// The member isn't of the form that its type has in JSON.
    Shape { path: Octets },
    /// It has the form, and is outside the bounds of its type.
    Range { path: Octets },
    Memory,
}
