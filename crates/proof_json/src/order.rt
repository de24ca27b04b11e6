//! A step of the laws of JSON: the members of each object in the trees that values are printed as stand in the order of their keys.
