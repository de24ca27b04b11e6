//! Tests of messages as octets: worked octets are read, and written again.

#[cfg(test)]
mod e1_and_core;
#[cfg(test)]
mod f1;
#[cfg(test)]
mod tokens;
#[cfg(test)]
mod xn;
