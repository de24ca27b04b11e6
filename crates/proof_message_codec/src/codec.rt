//! Steps of proofs on the codec of the profile: what it spells, and that units can rest on it.
