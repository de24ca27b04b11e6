//! Definitions alone: the grammar of modules. No code stands here; the contract of `read_module` cites these.
