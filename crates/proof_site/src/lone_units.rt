//! Where a unit holds what it is given, or refuses an event, that is all that it puts, and its record stays: lemmas over the rows of units.
