//! The steps of a decoder of aligned PER (ITU-T X.691) whose octets come in pieces: the turns of aper_resuming, but that of a string one
//! field is taken after another. So what a step that is cut off asks again is a few fields at most, and of a run of units nothing.

mod step;

pub use step::{Halted, Next, Onward, begun, take_step};
