//! Lexical items.

use gnb_types::octets::Octets;

/// The reserved words of the grammar (X.680, 12.38), with those of its two parameterised types and of its object sets.
#[derive(Clone, Copy, PartialEq, Eq)]
pub enum Word {
    Definitions,
    Automatic,
    Tags,
    Begin,
    End,
    Boolean,
    Integer,
    Enumerated,
    Bit,
    Octet,
    String,
    PrintableString,
    Sequence,
    Choice,
    Of,
    Size,
    Optional,
    ProtocolIeContainer,
    ProtocolPdu,
    ProtocolIes,
    ElementaryProcedure,
    Id,
    Criticality,
    Type,
    Presence,
    Initiating,
    Message,
    Successful,
    Unsuccessful,
    Outcome,
    Procedure,
    Code,
}

/// The signs of the grammar.
#[derive(Clone, Copy, PartialEq, Eq)]
pub enum Sign {
    /// `::=`
    Assignment,
    /// `...`
    Ellipsis,
    /// `..`
    Range,
    LeftBrace,
    RightBrace,
    LeftParenthesis,
    RightParenthesis,
    Comma,
    /// `|`
    Bar,
}

/// A lexical item, or what stands where there is none.
#[derive(Drop)]
pub enum Token {
    /// A name that begins with an upper-case letter: a type reference, module reference or set reference.
    Upper(Octets),
    /// A name that begins with a lower-case letter: an identifier.
    Lower(Octets),
    Word(Word),
    /// A number; one outside -2^64 to 2^64 is told as the nearer of these two, which no bound of the profile admits.
    Number(i128),
    Sign(Sign),
    /// A word or a sign of ASN.1 that the profile leaves out.
    OutOfProfile,
    /// No lexical item begins here.
    Nothing,
    /// The end of the text.
    EndOfText,
}

/// Where a lexical item stands in the text, from its first octet to that behind its last one, counted from 0.
#[derive(Clone, Copy, PartialEq, Eq)]
pub struct Place {
    pub start: usize,
    pub end: usize,
}
