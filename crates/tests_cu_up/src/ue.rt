//! Tests of a terminal, by public calls alone.

#[cfg(test)]
mod directions;
#[cfg(test)]
mod rows;
#[cfg(test)]
mod steps;
#[cfg(test)]
mod tokens;
