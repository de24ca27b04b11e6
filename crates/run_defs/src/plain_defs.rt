//! Definitions alone: what is asked of the units of a run, and when they are plain.
