//! Tests of what the program stands on: the outside, the script language, and an unacknowledged bearer. Whole calls of the program stand in `tools/whole_calls.py`.
#![tactic(auto)]

#[cfg(test)]
mod outside;
pub mod scripts;
pub mod tests_um;
