//! Steps of the laws of wrong places: a loose layout of a value answers what is asked for its type, and what loose layouts that agree
//! as far have next.
