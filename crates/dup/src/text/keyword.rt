//! The first words of events.

ghost use Rattle.std.specs.Prelude.{◌≡◌};
ghost use Rattle.dup.specs.text.Grammar.{keyword_text, keyword_of};

/// The first word of an event.
#[derive(Clone, Copy, PartialEq, Eq)]
pub enum DupKeyword {
    Offer,
    Carry,
    Confirm,
    Fail,
    Mend,
    Mode,
    Drain,
    Ask,
}

/// All keywords.
const KEYWORDS: [DupKeyword; 8] = [
    DupKeyword::Offer,
    DupKeyword::Carry,
    DupKeyword::Confirm,
    DupKeyword::Fail,
    DupKeyword::Mend,
    DupKeyword::Mode,
    DupKeyword::Drain,
    DupKeyword::Ask,
];

impl DupKeyword {
    /// The keyword's word.
    fn text(self) -> &'static [u8]
        ensures { result.now ≡ keyword_text self }
    {
        match self {
            DupKeyword::Offer => b"offer",
            DupKeyword::Carry => b"carry",
            DupKeyword::Confirm => b"confirm",
            DupKeyword::Fail => b"fail",
            DupKeyword::Mend => b"mend",
            DupKeyword::Mode => b"mode",
            DupKeyword::Drain => b"drain",
            DupKeyword::Ask => b"ask",
        }
    }
}

/// The keyword that is this word.
#[tactic(auto, unfolding(crate::specs::text::Grammar::keyword_of))]
pub(crate) fn keyword(word: &[u8]) -> Option<DupKeyword>
    ensures { result ≡ keyword_of word.now }
{
    KEYWORDS.iter().copied().find(|k| word == k.text())
}
