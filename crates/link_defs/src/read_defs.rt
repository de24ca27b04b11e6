//! Definitions alone: what octets say on a link and on a radio, as functions that read them.
