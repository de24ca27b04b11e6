//! Steps of the laws of aligned PER: octets that spell a value of a type are read as it.
