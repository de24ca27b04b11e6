//! Steps of proofs about octets that come in pieces: what was read of them, or found wrong, stays so when more octets come.
