//! Why a line isn't read.

ghost use Rattle.std.specs.Prelude.{◌≡◌};
ghost use Rattle.scenario_text.specs.declared.script_words.reason.TextError.TheVariants.{Refused as RefusedFor};

/// What the first wrong word from the left isn't.
#[derive(Clone, Copy, Debug, PartialEq, Eq)]
pub enum TextReason {
    /// The awaited word, or there is none.
    Word,
    /// A number of the awaited range, in plain decimal.
    Number,
    /// An even number of hexadecimal digits, at least two.
    Hex,
    /// The end of the line.
    Extra,
    /// The name of a node, a gNB, a terminal or a bearer.
    Name,
}

/// Why a line isn't read: a word is wrong, or memory ran out.
#[derive(Clone, Copy, Debug, PartialEq, Eq)]
pub enum TextError {
    /// A word is wrong.
    Refused(TextReason),
    /// Out of memory.
    Memory,
}

impl From<TextReason> for TextError {
    ghost from_gives = { λ reason e. e ≡ RefusedFor reason };

    fn from(reason: TextReason) -> TextError {
        TextError::Refused(reason)
    }
}
