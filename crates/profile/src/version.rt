//! The versions of the profile.

ghost use Rattle.std.specs.Prelude.{◌≡◌};
ghost use Rattle.profile.specs.Versions.{number_of, text_of};

use crate::text::PROFILE_TEXT;
use crate::text_2::PROFILE_TEXT_2;

/// A version of the profile. The second one adds the name of the source to HandoverRequest.
#[derive(Clone, Copy, PartialEq, Eq)]
pub enum Version {
    One,
    Two,
}

impl Version {
    /// Its number, 1 or 2.
    pub fn number(self) -> u8
        ensures { result ≡ number_of self }
    {
        match self {
            Version::One => 1,
            Version::Two => 2,
        }
    }

    /// The text of its module.
    #[tactic(auto, unfolding(crate::specs::Versions::text_of))]
    pub fn text(self) -> &'static [u8]
        ensures { result.now ≡ text_of self }
    {
        match self {
            Version::One => PROFILE_TEXT,
            Version::Two => PROFILE_TEXT_2,
        }
    }
}
