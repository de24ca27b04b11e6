//! Definitions alone: what a decoder of aligned PER (ITU-T X.691) that is fed in pieces says of the octets that it keeps.
