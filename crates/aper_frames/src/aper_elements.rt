//! A CHOICE and a Protocol-PDU of aligned PER, as they are begun (ITU-T X.691).

mod choice;
mod message;

pub use choice::begin_choice;
pub use message::begin_message;
