//! Steps of proofs on the octets of a value: they are its one spelling, or none; and types whose bounds are found by a test.
