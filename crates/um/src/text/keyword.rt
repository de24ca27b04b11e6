//! The first words of events.

ghost use Rattle.std.specs.Prelude.{◌≡◌};
ghost use Rattle.um.specs.text.Grammar.{keyword_text, keyword_of};

/// The first word of an event.
#[derive(Clone, Copy, PartialEq, Eq)]
pub enum UmKeyword {
    Offer,
    Give,
    Again,
    Lose,
    Tick,
    Ask,
}

/// All keywords.
const KEYWORDS: [UmKeyword; 6] = [
    UmKeyword::Offer,
    UmKeyword::Give,
    UmKeyword::Again,
    UmKeyword::Lose,
    UmKeyword::Tick,
    UmKeyword::Ask,
];

impl UmKeyword {
    /// The keyword's word.
    fn text(self) -> &'static [u8]
        ensures { result.now ≡ keyword_text self }
    {
        match self {
            UmKeyword::Offer => b"offer",
            UmKeyword::Give => b"give",
            UmKeyword::Again => b"again",
            UmKeyword::Lose => b"lose",
            UmKeyword::Tick => b"tick",
            UmKeyword::Ask => b"ask",
        }
    }
}

/// The keyword that is this word.
#[tactic(auto, unfolding(crate::specs::text::Grammar::keyword_of))]
pub(crate) fn keyword(word: &[u8]) -> Option<UmKeyword>
    ensures { result ≡ keyword_of word.now }
{
    KEYWORDS.iter().copied().find(|k| word == k.text())
}
