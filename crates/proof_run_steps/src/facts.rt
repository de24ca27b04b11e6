//! Steps of the laws of every run: what holds of units, of the core, of control messages and of items on links, and what keeps it.
