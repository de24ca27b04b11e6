//! Definitions alone: the types of a module with the names that JSON shows.
