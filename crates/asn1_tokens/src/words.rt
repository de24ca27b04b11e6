//! Which names are reserved words, and which words of ASN.1 the profile leaves out.

ghost use Rattle.std.specs.Prelude.{◌≡◌};
ghost use Rattle.asn1_tokens.specs.Words.{is_text, module_word, simple_type_word, part_type_word, set_word, procedure_word, word_of, is_left_out, is_word, is_sign};

use crate::token::{Sign, Word};

impl Word {
    /// The same word.
    pub fn is(self, other: Word) -> bool
        ensures { result ≡ is_word self other }
    {
        self as u8 == other as u8
    }
}

impl Sign {
    /// The same sign.
    pub fn is(self, other: Sign) -> bool
        ensures { result ≡ is_sign self other }
    {
        self as u8 == other as u8
    }
}

/// The same octets.
#[tactic(auto, unfolding(crate::specs::Words::is_text))]
pub fn is_text(name: &[u8], text: &[u8]) -> bool
    ensures { result ≡ is_text name.now text.now }
{
    name == text
}

#[tactic(auto, unfolding(crate::specs::Words::module_word))]
fn module_word(name: &[u8]) -> Option<Word>
    ensures { result ≡ module_word name.now }
{
    if is_text(name, b"DEFINITIONS") {
        return Some(Word::Definitions);
    }
    if is_text(name, b"AUTOMATIC") {
        return Some(Word::Automatic);
    }
    if is_text(name, b"TAGS") {
        return Some(Word::Tags);
    }
    if is_text(name, b"BEGIN") {
        return Some(Word::Begin);
    }
    if is_text(name, b"END") {
        return Some(Word::End);
    }
    None
}

#[tactic(auto, unfolding(crate::specs::Words::simple_type_word))]
fn simple_type_word(name: &[u8]) -> Option<Word>
    ensures { result ≡ simple_type_word name.now }
{
    if is_text(name, b"BOOLEAN") {
        return Some(Word::Boolean);
    }
    if is_text(name, b"INTEGER") {
        return Some(Word::Integer);
    }
    if is_text(name, b"ENUMERATED") {
        return Some(Word::Enumerated);
    }
    if is_text(name, b"BIT") {
        return Some(Word::Bit);
    }
    if is_text(name, b"OCTET") {
        return Some(Word::Octet);
    }
    if is_text(name, b"STRING") {
        return Some(Word::String);
    }
    if is_text(name, b"PrintableString") {
        return Some(Word::PrintableString);
    }
    None
}

#[tactic(auto, unfolding(crate::specs::Words::part_type_word))]
fn part_type_word(name: &[u8]) -> Option<Word>
    ensures { result ≡ part_type_word name.now }
{
    if is_text(name, b"SEQUENCE") {
        return Some(Word::Sequence);
    }
    if is_text(name, b"CHOICE") {
        return Some(Word::Choice);
    }
    if is_text(name, b"OF") {
        return Some(Word::Of);
    }
    if is_text(name, b"SIZE") {
        return Some(Word::Size);
    }
    if is_text(name, b"OPTIONAL") {
        return Some(Word::Optional);
    }
    if is_text(name, b"ProtocolIE-Container") {
        return Some(Word::ProtocolIeContainer);
    }
    if is_text(name, b"Protocol-PDU") {
        return Some(Word::ProtocolPdu);
    }
    None
}

#[tactic(auto, unfolding(crate::specs::Words::set_word))]
fn set_word(name: &[u8]) -> Option<Word>
    ensures { result ≡ set_word name.now }
{
    if is_text(name, b"PROTOCOL-IES") {
        return Some(Word::ProtocolIes);
    }
    if is_text(name, b"ELEMENTARY-PROCEDURE") {
        return Some(Word::ElementaryProcedure);
    }
    if is_text(name, b"ID") {
        return Some(Word::Id);
    }
    if is_text(name, b"CRITICALITY") {
        return Some(Word::Criticality);
    }
    if is_text(name, b"TYPE") {
        return Some(Word::Type);
    }
    if is_text(name, b"PRESENCE") {
        return Some(Word::Presence);
    }
    None
}

#[tactic(auto, unfolding(crate::specs::Words::procedure_word))]
fn procedure_word(name: &[u8]) -> Option<Word>
    ensures { result ≡ procedure_word name.now }
{
    if is_text(name, b"INITIATING") {
        return Some(Word::Initiating);
    }
    if is_text(name, b"MESSAGE") {
        return Some(Word::Message);
    }
    if is_text(name, b"SUCCESSFUL") {
        return Some(Word::Successful);
    }
    if is_text(name, b"UNSUCCESSFUL") {
        return Some(Word::Unsuccessful);
    }
    if is_text(name, b"OUTCOME") {
        return Some(Word::Outcome);
    }
    if is_text(name, b"PROCEDURE") {
        return Some(Word::Procedure);
    }
    if is_text(name, b"CODE") {
        return Some(Word::Code);
    }
    None
}

/// The word that a name is, if it is one.
#[tactic(auto, unfolding(crate::specs::Words::word_of))]
pub fn word_of(name: &[u8]) -> Option<Word>
    ensures { result ≡ word_of name.now }
{
    if let Some(word) = module_word(name) {
        return Some(word);
    }
    if let Some(word) = simple_type_word(name) {
        return Some(word);
    }
    if let Some(word) = part_type_word(name) {
        return Some(word);
    }
    if let Some(word) = set_word(name) {
        return Some(word);
    }
    procedure_word(name)
}

/// One of the words of ASN.1 that the profile leaves out.
#[tactic(auto, unfolding(crate::specs::Words::is_left_out))]
pub fn is_left_out(name: &[u8]) -> bool
    ensures { result ≡ is_left_out name.now }
{
    is_text(name, b"REAL")
        || is_text(name, b"SET")
        || is_text(name, b"DEFAULT")
        || is_text(name, b"IMPORTS")
        || is_text(name, b"EXPORTS")
        || is_text(name, b"EXPLICIT")
        || is_text(name, b"IMPLICIT")
        || is_text(name, b"CLASS")
        || is_text(name, b"NULL")
}
