//! Tests of the script language: its words, events and lines.

#[cfg(test)]
mod scenario;
#[cfg(test)]
mod words;
