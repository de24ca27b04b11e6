//! Tests of the steps of a DU, by public calls alone.

#[cfg(test)]
mod few_messages;
#[cfg(test)]
mod rows;
#[cfg(test)]
mod steps;
