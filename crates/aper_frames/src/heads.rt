//! What aligned PER has before and around the members of a value, as it is asked: flags, marks of additions, heads of messages and
//! of information elements, and octets of what isn't known (ITU-T X.691).

mod elements;
mod flags;
mod messages;
mod raw;

pub use elements::{ElementHead, ask_element_count, ask_element_head, rows_left};
pub use flags::{ask_flags, ask_marks};
pub use messages::{MessageHead, ask_message_head};
pub use raw::{RawError, ask_raw};
