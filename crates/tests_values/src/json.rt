//! Tests of values as JSON, by public calls alone.

#[cfg(test)]
mod texts;
#[cfg(test)]
mod vectors;
