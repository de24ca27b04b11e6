//! Steps of the laws of what is heard in a value: the elements of a set stand in order, and what is read from fields and written again is the same.
