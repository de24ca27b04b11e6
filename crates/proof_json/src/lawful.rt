//! Steps of the laws of JSON: of every type, JSON shows a value of it exactly where no demand of the type fails.
