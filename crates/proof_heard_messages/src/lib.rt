//! Proof steps of messages as values: what is written for a message or a token is heard as it.
#![tactic(auto)]
