//! Proof steps of sound transcripts: a text has one reading, and breaks one rule first.
#![tactic(auto)]
