//! What links refuse.

use gnb_types::items::Memory as NoMemory;

/// Why a call of a link changed nothing. Of several causes the first of this list is reported.
#[derive(Clone, Copy, PartialEq, Eq)]
pub enum LinkError {
    /// No message of this number was put, or the tunnel isn't open: it was never made, or was closed.
    NoSuch,
    /// The tunnel was made as one that loses nothing.
    NotAllowed,
    /// The message isn't in flight; or no such item stands on the link.
    Empty,
    /// As many messages were put as there can be.
    Spent,
    /// Out of memory.
    Memory,
}

impl From<NoMemory> for LinkError {
    ghost use Rattle.std.specs.Prelude.{◌≡◌};
    ghost use Rattle.links.specs.declared.links_bag.error.LinkError.TheVariants.{Memory};

    ghost from_gives = { λ _ e. e ≡ Memory };

    fn from(_error: NoMemory) -> LinkError {
        LinkError::Memory
    }
}
