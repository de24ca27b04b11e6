//! The lexical items of an ASN.1 module (X.680, clause 12), in the part of ASN.1 that this project reads.
#![tactic(auto)]

mod scan;
mod token;
mod tokens;
mod words;

pub use token::{Place, Sign, Token, Word};
pub use tokens::Tokens;
pub use words::is_text;
