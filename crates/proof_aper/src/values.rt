//! Steps of the laws of aligned PER: what answers the questions of a type is the layout of a value of it.
