//! A step of the laws of JSON: a type of a module with its names is what its definition says.
