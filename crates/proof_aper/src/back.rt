//! Steps of the laws of refusals: what answers the questions of a type is a loose layout of a value of it.
