//! Who judges how control messages are spelled.

ghost use Rattle.std.specs.Prelude.{◌↔◌, IfOk, IsTrue};
ghost use Rattle.transcript_defs.specs.Rules.{Spelling};
ghost use Rattle.transcript_check.specs.Steps.{IsSpelling};

use gnb_types::items::Memory;
use gnb_types::names::NodeId;
use std::alloc::Global;

/// Judges how control messages are spelled. A checker needs no codec: it asks this.
pub trait Spells {
    ghost spelling: { Self → Spelling };

    /// Whether the octets are the spelling of some message, whatever its ends are. `from` and `to` say which message is likely.
    fn is_spelling(
        &self,
        alloc: Global,
        from: NodeId,
        to: NodeId,
        octets: &[u8],
    ) -> Result<bool, Memory>
        ensures { IfOk result (λ is. IsTrue is ↔ IsSpelling (spelling self.now) octets.now) };
}
