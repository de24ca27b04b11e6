//! Steps of proofs that what is printed of a value is JSON of that value, and read again is the value.
