//! Steps of the laws of every run: what holds of units, of the core and of all control messages ever put, where each step keeps it.
