//! Lines of what is handed up, and of what is refused.

ghost use Rattle.std.specs.Prelude.{◌≡◌, ◌++◌, [], ◌∷◌, OnOk, IfOk};
ghost use Rattle.um_defs.specs.declared.types.line.UmLine.TheVariants.{Refused};
ghost use Rattle.um_defs.specs.Receivers.{entries};
ghost use Rattle.um_defs.specs.um_run_defs.Run.{delivered};

use gnb_types::items::{Items, Memory};
use gnb_types::reasons::RefuseReason;
use std::alloc::Global;
use um_defs::types::line::UmLine;
use um_defs::types::out::Outs;
use um_defs::types::stop::UmLines;

/// A line for each packet that is handed up, at the end.
pub(crate) fn put_delivered(lines: &mut UmLines, outs: Outs) -> Result<(), Memory>
    ensures { OnOk result (lines.new ≡ lines.old ++ delivered (entries outs)) }
{
    for out in outs.into_vec() {
        lines.push(UmLine::Deliver {
            count: out.count,
            packet: out.packet,
        })?;
    }
    Ok(())
}

/// The line of an event that is refused.
pub(crate) fn refused(alloc: Global, reason: RefuseReason) -> Result<UmLines, Memory>
    ensures { IfOk result (λ lines. lines ≡ Refused reason ∷ []) }
{
    Items::one(alloc, UmLine::Refused { reason })
}
