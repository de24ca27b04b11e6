//! Steps of proofs on the lines of transcripts: a line's text is read back as the line.
#![tactic(auto)]
