//! Steps of the proof that what is printed of a value of a module's type is read again as that value.
