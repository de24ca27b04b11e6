//! Definitions alone: the codec of the profile, what it spells and what it reads, and codecs that read of E1AP what octets say.
#![tactic(auto)]
