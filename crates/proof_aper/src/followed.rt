//! Steps of a decoder's proof: what is asked at a place goes on with the same answer when more octets come, whatever is asked after it.
