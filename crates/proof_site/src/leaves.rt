//! Units that do what the tables say leave all where they hold what they are given or refuse an event, as long as their tables are in order; and they
//! go on to be.
