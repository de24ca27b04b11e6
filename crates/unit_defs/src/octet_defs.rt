//! Definitions alone: the units over octets. What octets say to a unit, which COUNT it finds from a number, what it does then, and
//! which octets it puts out.
