//! Steps of the laws of values as JSON: texts and numbers, types without types inside, and SEQUENCE.
