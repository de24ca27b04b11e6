//! What comes next in a value that is being read.

ghost use Rattle.std.specs.Prelude.{◌≡◌};
ghost use Rattle.aper_stream.specs.resuming.Turns.{handed_back};

use aper_cursor::Unanswered;
use aper_defs::Reason;
use aper_frames::{Components, Elements, Frame};
use aper_values::value::Value;
use asn1_syntax::types::TypeId;
use gnb_types::items::Memory;

/// What comes next in a value that is being read.
#[derive(Drop)]
pub enum Pending<'m> {
    /// A value of a type is to be read.
    Read(TypeId),
    /// A value has been made.
    Made(Value),
    /// After all components of a SEQUENCE it is asked which additions are there.
    Marks(Components<'m>),
    /// The head of an information element, after which so many are left.
    Head(Elements<'m>),
    /// An open type around a value of a type, which is inside this one.
    Inside {
        frame: Frame<'m>,
        definition: TypeId,
    },
    /// An open type around what isn't known, which is inside this one.
    Unknown(Frame<'m>),
    /// So many octets of what isn't known.
    Octets(u16),
    /// The end of an open type after this value.
    Closing(Value),
    /// The end of the whole value.
    Ending(Value),
}

/// Why a turn wasn't taken.
#[derive(Drop)]
pub enum Stopped<'m> {
    /// The octets are wrong, or end here. What comes next is handed back.
    Wrong(Reason, Pending<'m>),
    Memory,
}

impl<'m> From<Memory> for Stopped<'m> {
    ghost use Rattle.std.specs.Prelude.{◌≡◌};
    ghost use Rattle.aper_stream.specs.declared.resuming.pending.Stopped.TheVariants.{Memory as OutOfMemory};

    ghost from_gives = { λ _ e. e ≡ OutOfMemory };

    fn from(_error: Memory) -> Stopped<'m> {
        Stopped::Memory
    }
}

/// A turn that wasn't taken, for this reason.
pub fn handed_back<'m>(error: Unanswered, pending: Pending<'m>) -> Stopped<'m>
    ensures { result ≡ handed_back error pending.entry }
{
    match error {
        Unanswered::Wrong(reason) => Stopped::Wrong(reason, pending),
        Unanswered::Memory => Stopped::Memory,
    }
}
