//! Steps of the laws of refusals, and of a decoder's contract: where the questions of a type are refused, octets go wrong by its loose
//! layouts, and the other way round.
