//! The run of one unacknowledged bearer over a link that loses, repeats and reorders messages (TS 38.323, 5.2.1, 5.2.2).

mod lines;
pub mod world;
