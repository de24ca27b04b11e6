//! Tokens of terminals.

ghost use Rattle.std.specs.Prelude.{◌≡◌};
ghost use Rattle.unit_defs.specs.CuCp.{token_received};
ghost use Rattle.unit_defs.specs.octet_defs.Codec.{octet_way};
ghost use Rattle.unit_messages.specs.steps.Steps.{step_after, IsStep};

use crate::asked::at_of;
use crate::carrying::carry_made;
use cu_cp_answers::control_tokens as rows;
use cu_cp_records::control_records::ControlRecord;
use gnb_types::names::{NodeId, UeId};
use gnb_types::octets::Octets;
use gnb_types::outputs::Outputs;
use std::alloc::Global;
use unit_messages::MessageCodec;
use unit_messages::steps::StepError;

/// A container came by a node.
#[tactic(auto, unfolding(unit_defs::specs::CuCp::token_received))]
pub(crate) fn token_received<C: MessageCodec>(
    record: &mut ControlRecord,
    alloc: Global,
    codec: &C,
    ue: UeId,
    from: NodeId,
    container: &Octets,
    outputs: &mut Outputs,
) -> Result<(), StepError>
    ensures { IsStep
        (step_after outputs.old
        (token_received (octet_way C.codec) ue from container.now record.old))
        outputs.new record.new result }
{
    let token = codec.read_token(alloc, container.as_slice())?;
    let terminal = record.terminal(alloc, ue)?;
    let at = at_of(record, alloc, codec, ue);
    let row = rows::token_received(&at, from, &terminal, token);
    drop(terminal);
    carry_made(record, alloc, codec, ue, row, outputs)
}
