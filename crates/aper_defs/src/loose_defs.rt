//! Definitions alone: the loose layouts of a type of aligned PER, and the first field at which octets go wrong (ITU-T X.691).
