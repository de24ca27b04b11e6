//! Steps of the laws of JSON: the types of a module without their names, their bounds, and the values that JSON of them shows.
