//! Tests of the reader of ASN.1 modules, crate by crate.

#[cfg(test)]
mod assignments;
#[cfg(test)]
mod module;
#[cfg(test)]
mod tokens;
#[cfg(test)]
mod types;
