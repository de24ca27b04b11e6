//! Definitions alone: which codecs read messages in the ranges of the profile, as far as a CU-UP rests on them.
