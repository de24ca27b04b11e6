//! Steps of the laws of values as JSON: CHOICE, and what information elements and messages hold.
