//! Tests of whole values of aligned PER by public calls alone: spellings that others worked out, read and written, also many times, and octets that are
//! refused.

#[cfg(test)]
mod codec;
#[cfg(test)]
mod refusals;
#[cfg(test)]
mod spellings;
#[cfg(test)]
mod vectors;
