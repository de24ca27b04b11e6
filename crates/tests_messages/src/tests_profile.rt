//! Tests of the profile's module, by public calls alone.

#[cfg(test)]
mod built_in;
