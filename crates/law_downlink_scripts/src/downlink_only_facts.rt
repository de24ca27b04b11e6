//! Steps of the laws of runs in which no unit is told anything: what a state has of the downlink of a bearer, when all of it is in order, and what
//! an event tells of it.
