//! Tests of the steps of a CU-CP, by public calls alone.

#[cfg(test)]
mod drops;
#[cfg(test)]
mod few_messages;
#[cfg(test)]
mod rows;
#[cfg(test)]
mod steps;
