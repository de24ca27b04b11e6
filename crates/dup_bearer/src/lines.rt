//! Lines of an event.

ghost use Rattle.std.specs.Prelude.{◌≡◌, ◌++◌, [], ◌∷◌, map, OnOk, IfOk};
ghost use Rattle.dup_defs.specs.declared.types.line.DupLine.TheVariants.{Refused};
ghost use Rattle.um_defs.specs.Receivers.{entries};
ghost use Rattle.dup_defs.specs.dup_run_defs.Run.{lost_lines};
ghost use Rattle.dup_bearer.specs.Bearers.{deliver_line};

use dup_defs::types::leg::Leg;
use dup_defs::types::line::{DupLine, DupRefusal};
use dup_defs::types::stop::DupLines;
use gnb_types::items::{Items, Memory};
use std::alloc::Global;
use um_defs::types::out::Outs;

/// A line for each packet that is handed up, at the end.
pub(crate) fn put_delivered(lines: &mut DupLines, outs: Outs) -> Result<(), Memory>
    ensures { OnOk result (lines.new ≡ lines.old ++ map deliver_line (entries outs)) }
{
    for out in outs.into_vec() {
        lines.push(DupLine::Deliver {
            count: out.count,
            packet: out.packet,
        })?;
    }
    Ok(())
}

/// A line of items that are gone, where there are any.
pub(crate) fn put_lost(lines: &mut DupLines, leg: Leg, items: u32) -> Result<(), Memory>
    ensures { OnOk result (lines.new ≡ lines.old ++ lost_lines leg items) }
{
    if items == 0 {
        return Ok(());
    }
    lines.push(DupLine::Lost { leg, items })
}

/// The line of an event that is refused.
pub(crate) fn refused(alloc: Global, reason: DupRefusal) -> Result<DupLines, Memory>
    ensures { IfOk result (λ lines. lines ≡ Refused reason ∷ []) }
{
    Items::one(alloc, DupLine::Refused { reason })
}
