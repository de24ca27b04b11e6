//! What each event leaves of the run of a bearer with duplication, and what it delivers: lemmas that the laws of its scripts stand on.
