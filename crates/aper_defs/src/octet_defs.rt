//! Definitions alone: the octets of a value of a type, computed (BASIC-PER aligned, ITU-T X.691).
