//! An answer that no row names, and the causes of failures.

ghost use Rattle.std.specs.Prelude.{◌≡◌, Some};
ghost use Rattle.unit_defs.specs.Messages.{cause_name};
ghost use Rattle.unit_defs.specs.CuCp.{only_closes};
ghost use Rattle.unit_defs.specs.octet_defs.Codec.{octet_way};
ghost use Rattle.cu_cp_records.specs.control_actions.Rows.{SomeRowGives};

use cu_cp_records::control_actions::{Row, Scope};
use cu_cp_records::control_contexts::{Attempt, Context, Terminal};
use gnb_types::items::Items;
use gnb_types::reasons::CauseName;
use unit_messages::MessageCodec;
use unit_messages::steps::StepError;

// The causes of the profile's enumeration.
const QUOTA: u32 = 0;

const BUSY: u32 = 1;

const NO_UNIT: u32 = 2;

/// The answer only closes its request: it is awaited no more.
pub(crate) fn only_closes<C: MessageCodec>(
    at: &Scope<'_, C>,
    terminal: &Terminal,
    context: &Context,
    attempt: &Attempt,
) -> Result<Option<Row>, StepError>
    ensures { SomeRowGives
        (Some (only_closes (octet_way C.codec) terminal.now context.now attempt.now)) result }
{
    let attempt = attempt.copy(at.alloc)?;
    let context = context.attempted(context.state, attempt);
    Ok(Some(Row::keeps(terminal, Items::new(at.alloc), context)))
}

/// The name of a cause; one past the root has none.
pub(crate) fn cause_name(cause: u32) -> Option<CauseName>
    ensures { result ≡ cause_name cause }
{
    match cause {
        QUOTA => Some(CauseName::Quota),
        BUSY => Some(CauseName::Busy),
        NO_UNIT => Some(CauseName::Unit),
        _ => None,
    }
}
