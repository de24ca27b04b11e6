//! Whose the open TEIDs of a node are, and steps of the laws of it: what contexts name, where one of them changes, ends, or is given TEIDs.
