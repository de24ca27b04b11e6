//! Definitions alone: the one tree of JSON that a value of a type is printed as, and the types of which it can be read back.
