//! A step of proofs: the texts of the profile are those of its types. Its function does nothing: its contract is the step.

ghost use Rattle.message_defs.specs.profile_defs.Profile.{profile_types};
ghost use Rattle.profile.specs.profile_proof_text.Texts.{IsProfileText};

use crate::{PROFILE_TEXT, PROFILE_TEXT_2};

/// Each text is that of a module which agrees with the profile's types of its version.
pub fn profile_texts_agree()
    ensures one { IsProfileText (profile_types 1) PROFILE_TEXT.now }
    ensures two { IsProfileText (profile_types 2) PROFILE_TEXT_2.now }
{}
