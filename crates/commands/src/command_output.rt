//! What each word of the program needs for its output: its lines are written, and the statuses are
//! made that all words share.

mod status;
mod write;

pub use status::{
    common_last_line, common_status, end_of_input, fault_text, line_status, module_status,
    stop_line,
};
pub use write::{text_of, write_all, write_lines};
