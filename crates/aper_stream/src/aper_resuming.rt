//! Steps of a decoder's proof: what its turns say of the octets of its pieces is what is said of the whole.
