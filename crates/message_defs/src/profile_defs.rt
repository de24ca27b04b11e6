//! Definitions alone: the profile's module, in two versions: its types, its messages, and which modules agree with it.
