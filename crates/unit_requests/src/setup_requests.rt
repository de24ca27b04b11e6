//! What the units of a gNB share of their interface's setup: the name in the request, and that it is put again at each tick.

pub mod due;
pub mod names;

pub use due::put_due;
pub use names::node_name;
