//! A row is carried out, if it could be made.

ghost use Rattle.std.specs.Prelude.{List, ℕ};
ghost use Rattle.unit_defs.specs.CuCpRecords as cp;
ghost use Rattle.unit_defs.specs.CuCp.{by_row};
ghost use Rattle.unit_defs.specs.octet_defs.Codec.{octet_way};
ghost use Rattle.cu_cp_records.specs.control_actions.Rows.{RowGives};
ghost use Rattle.unit_messages.specs.steps.Steps.{step_after, IsStep};

use crate::steps::carry_out;
use cu_cp_records::control_actions::Row;
use cu_cp_records::control_records::ControlRecord;
use gnb_types::names::UeId;
use gnb_types::outputs::Outputs;
use std::alloc::Global;
use unit_messages::MessageCodec;
use unit_messages::steps::StepError;

/// A row that was made is carried out, and an error stays one: so a caller owns no row at an exit of its own.
pub(crate) fn carry_made<C: MessageCodec>(
    record: &mut ControlRecord,
    alloc: Global,
    codec: &C,
    ue: UeId,
    row: Result<Row, StepError>,
    outputs: &mut Outputs,
) -> Result<(), StepError>
    ensures { (wanted : cp.Row (List ℕ)) → RowGives wanted row → IsStep
        (step_after outputs.old (by_row (octet_way C.codec) ue wanted record.old))
        outputs.new record.new result }
{
    match row {
        Ok(row) => carry_out(record, alloc, codec, ue, row, outputs),
        Err(error) => Err(error),
    }
}
