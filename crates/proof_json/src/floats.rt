//! A step of the laws of JSON: the trees that values are printed as have no number that is kept as a float.
