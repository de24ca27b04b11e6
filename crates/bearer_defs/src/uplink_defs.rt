//! Definitions alone: the model of one bearer's uplink in a run, the orders that change it, and what they ask for.
