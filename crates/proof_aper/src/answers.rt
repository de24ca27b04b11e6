//! Steps of the laws of aligned PER: the fields of a value that stand at a place answer what is asked for its type, and give it.
