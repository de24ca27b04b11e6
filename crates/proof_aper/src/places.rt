//! Steps of the laws of aligned PER: the fields of a value stand where their bits are.
