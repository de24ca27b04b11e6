//! Proof steps: the functions that read ASN.1 modules read what the grammar spells, and report the first fault of other texts.
//!
//! - `lexical`: The lexical items of a text are those of relations without a state.
//! - `grammar`: Definitions alone: the grammar of modules.
//! - `asn1_proof_syntax`: The reading functions read what the grammar spells, and report the first item with which no module goes on.
//! - `items`: The fault of a text's items is the first item that passes a bound or gives something again.
//! - `values`: The reading functions read what the items mean, and items have one meaning.
//! - `reading`: The reading functions read the modules among texts, and report the first wrong item of the others.
#![tactic(auto)]

pub mod asn1_proof_syntax;
pub mod grammar;
pub mod items;
pub mod lexical;
pub mod reading;
pub mod values;
