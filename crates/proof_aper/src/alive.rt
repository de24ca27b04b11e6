//! Steps of the laws of refusals: every right answer to what is asked for a type can be gone on with up to a value.
