//! Definitions alone: the run of one unacknowledged bearer over a link that loses, repeats and reorders.
