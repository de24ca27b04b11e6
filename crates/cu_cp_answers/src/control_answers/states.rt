//! Which rows an answer may name, by the state of the terminal.

ghost use Rattle.std.specs.Prelude.{◌≡◌, [], ◌∷◌, Some};
ghost use Rattle.unit_defs.specs.CuCp.{in_releasing, in_state, answer_of, answer};
ghost use Rattle.unit_defs.specs.octet_defs.Codec.{octet_way};
ghost use Rattle.unit_messages.specs.Messages.{message_as};
ghost use Rattle.cu_cp_records.specs.control_actions.Rows.{SomeRowGives};
ghost use Rattle.cu_cp_answers.specs.control_answers.Answers.{AnswerGives};

use crate::control_answers::attaching::in_attaching;
use crate::control_answers::closing::only_closes;
use crate::control_answers::moving::in_moving;
use crate::control_answers::offered::in_offered;
use crate::control_answers::preparing::{in_prepared, in_preparing};
use crate::control_answers::switching::in_switching;
use cu_cp_records::control_actions::{Row, Scope};
use cu_cp_records::control_contexts::{Attempt, Context, Terminal};
use cu_cp_rows::control_rows::is_between_gnbs;
use cu_cp_rows::control_targets::is_between_dus;
use gnb_types::items::Items;
use gnb_types::names::NodeId;
use unit_defs::StateName;
use unit_messages::steps::StepError;
use unit_messages::{Message, MessageCodec};

/// What an answer is to the attempt of a terminal.
#[derive(Drop)]
pub enum Answered {
    /// No attempt awaits it.
    NotAwaited,
    /// The attempt awaits it: its row, or none where the message lacks what the row uses.
    Awaited(Option<Row>),
}

/// The source lets go: it is over once DU and CU-UP have answered.
fn in_releasing<C: MessageCodec>(
    at: &Scope<'_, C>,
    terminal: &Terminal,
    context: &Context,
    attempt: &Attempt,
) -> Result<Option<Row>, StepError>
    ensures { SomeRowGives (Some (in_releasing (octet_way C.codec) terminal.now context.now
        attempt.now attempt.now.awaits)) result }
{
    if attempt.awaits.is_empty() {
        return Ok(Some(Row::gives_up(terminal, Items::new(at.alloc))));
    }
    only_closes(at, terminal, context, attempt)
}

fn while_preparing<C: MessageCodec>(
    at: &Scope<'_, C>,
    message: &Message,
    terminal: &Terminal,
    context: &Context,
    attempt: &Attempt,
) -> Result<Option<Row>, StepError>
    ensures { SomeRowGives
        (in_state (octet_way C.codec) at.now (message_as message.now) terminal.now context.now
        StateName.Preparing attempt.now) result }
{
    if is_between_dus(attempt.kind) {
        return in_moving(at, message, terminal, context, attempt);
    }
    in_preparing(at, message, terminal, context, attempt)
}

fn while_completing<C: MessageCodec>(
    at: &Scope<'_, C>,
    message: &Message,
    terminal: &Terminal,
    context: &Context,
    attempt: &Attempt,
) -> Result<Option<Row>, StepError>
    ensures { SomeRowGives
        (in_state (octet_way C.codec) at.now (message_as message.now) terminal.now context.now
        StateName.Completing attempt.now) result }
{
    if is_between_gnbs(attempt.kind) {
        return in_releasing(at, terminal, context, attempt);
    }
    in_switching(at, message, terminal, context, attempt)
}

fn in_state<C: MessageCodec>(
    at: &Scope<'_, C>,
    message: &Message,
    terminal: &Terminal,
    context: &Context,
    attempt: &Attempt,
) -> Result<Option<Row>, StepError>
    ensures { SomeRowGives
        (in_state (octet_way C.codec) at.now (message_as message.now) terminal.now context.now
        context.now.state attempt.now) result }
{
    match context.state {
        StateName::Attaching => in_attaching(at, message, terminal, context, attempt),
        StateName::Preparing => while_preparing(at, message, terminal, context, attempt),
        StateName::Prepared => in_prepared(at, message, terminal, context, attempt),
        StateName::Offered => in_offered(at, message, terminal, context, attempt),
        StateName::Returning | StateName::Arrived => {
            in_switching(at, message, terminal, context, attempt)
        }
        StateName::Completing => while_completing(at, message, terminal, context, attempt),
        StateName::Idle
        | StateName::Frozen
        | StateName::Commanded
        | StateName::Ready
        | StateName::Serving => only_closes(at, terminal, context, attempt),
    }
}

/// What an answer is to the attempt of the terminal: an answer of the node with the instance that it awaits names its row.
#[tactic(auto, unfolding(unit_defs::specs::CuCp::answer))]
pub fn answer<C: MessageCodec>(
    at: &Scope<'_, C>,
    from: NodeId,
    instance: u32,
    message: &Message,
    terminal: &Terminal,
) -> Result<Answered, StepError>
    ensures { AnswerGives (octet_way C.codec)
        (answer (octet_way C.codec) at.now from instance (message_as message.now) terminal.now) result }
{
    let Some(context) = &terminal.context else {
        return Ok(Answered::NotAwaited);
    };
    let Some(attempt) = &context.attempt else {
        return Ok(Answered::NotAwaited);
    };
    if !attempt.awaits_answer(from, instance) {
        return Ok(Answered::NotAwaited);
    }
    let attempt = attempt.copy(at.alloc)?.answered(at.alloc, from)?;
    Ok(Answered::Awaited(in_state(at, message, terminal, context, &attempt)?))
}
