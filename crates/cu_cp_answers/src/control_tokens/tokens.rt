//! The row of a token.

ghost use Rattle.std.specs.Prelude.{◌≡◌, ◌==◌, ◌+◌, ◌&&◌};
ghost use Rattle.unit_defs.specs.CuCpRecords.{same_node};
ghost use Rattle.unit_defs.specs.CuCpRows.{own_du};
ghost use Rattle.unit_defs.specs.CuCp.{is_reestablish, is_epoch, token_in_ready, token_of_return, token_of_attempt, token_while_serving, token_by_attempt, token_on, token_row, token_ue, container_row, no_context_first};
ghost use Rattle.unit_defs.specs.octet_defs.Codec.{octet_way};
ghost use Rattle.cu_cp_records.specs.control_actions.Rows.{RowGives};

use crate::control_tokens::received::{Received, is_complete, is_epoch, is_reestablish};
use crate::control_tokens::states::{is_own_command, is_ready, is_too_early, may_return};
use cu_cp_records::control_actions::{Row, Scope, accepted_action};
use cu_cp_records::control_contexts::{Attempt, Context, Terminal, same_node};
use cu_cp_rows::control_targets::{arrives, arrives_again, completes, completes_again, returns};
use gnb_types::names::{NodeId, UeId};
use gnb_types::reasons::DropReason;
use message_types::Token;
use unit_messages::MessageCodec;
use unit_messages::steps::StepError;

/// Whether an epoch is the one after another.
fn is_next(epoch: u64, next: u32) -> bool
    ensures { result ≡ (epoch + 1 == next) }
{
    next > 0 && epoch == u64::from(next - 1)
}

/// At the target of a handover that awaits the terminal.
fn token_in_ready<C: MessageCodec>(
    at: &Scope<'_, C>,
    received: Received,
    terminal: &Terminal,
    context: &Context,
    attempt: &Attempt,
) -> Result<Row, StepError>
    ensures { RowGives
        (token_in_ready (octet_way C.codec) at.now received.from received.token received.epoch terminal.now
        context.now attempt.now) result }
{
    let is_here = same_node(received.from, NodeId::Du(at.gnb, context.du));
    if !is_ready(at, context.state) || !is_here {
        return Row::ignores(at, terminal, DropReason::Unexpected);
    }
    if is_complete(at, received.token) && attempt.epoch == u64::from(received.epoch) {
        let attempt = attempt.copy(at.alloc)?;
        return arrives(at, received.epoch, terminal, context, attempt);
    }
    if is_reestablish(at, received.token) && is_next(attempt.epoch, received.epoch) {
        let attempt = attempt.copy(at.alloc)?;
        return arrives_again(at, received.epoch, terminal, context, attempt);
    }
    Row::ignores(at, terminal, DropReason::Unexpected)
}

/// Whether the terminal is back at its DU, with the epoch after the one that was accepted last.
fn is_return<C: MessageCodec>(at: &Scope<'_, C>, received: Received, context: &Context) -> bool
    ensures { result ≡ (is_reestablish (octet_way C.codec) received.token
        && is_epoch (octet_way C.codec) context.now.epoch 1 received.epoch
        && same_node received.from (own_du at.now context.now.du)) }
{
    is_reestablish(at, received.token)
        && is_epoch(at, context.epoch, 1, received.epoch)
        && same_node(received.from, NodeId::Du(at.gnb, context.du))
}

/// The terminal is back at its DU, if that is what the token says: the return is taken, or comes too early.
fn token_of_return<C: MessageCodec>(
    at: &Scope<'_, C>,
    received: Received,
    terminal: &Terminal,
    context: &Context,
    attempt: &Attempt,
) -> Result<Row, StepError>
    ensures { RowGives
        (token_of_return (octet_way C.codec) at.now received.from received.token received.epoch terminal.now
        context.now attempt.now) result }
{
    if !is_return(at, received, context) {
        return token_in_ready(at, received, terminal, context, attempt);
    }
    if may_return(at, context.state, attempt.kind) {
        return returns(at, received.epoch, terminal, context);
    }
    if is_too_early(at, context.state, attempt.kind) {
        return Row::ignores(at, terminal, DropReason::Busy);
    }
    token_in_ready(at, received, terminal, context, attempt)
}

/// The terminal is at the DU to which it was told to go, if that is what the token says.
fn token_of_attempt<C: MessageCodec>(
    at: &Scope<'_, C>,
    received: Received,
    terminal: &Terminal,
    context: &Context,
    attempt: &Attempt,
) -> Result<Row, StepError>
    ensures { RowGives
        (token_of_attempt (octet_way C.codec) at.now received.from received.token received.epoch terminal.now
        context.now attempt.now) result }
{
    let is_there = same_node(received.from, NodeId::Du(at.gnb, attempt.du));
    if !is_own_command(at, context.state, attempt.kind) || !is_there {
        return token_of_return(at, received, terminal, context, attempt);
    }
    if is_complete(at, received.token) && is_epoch(at, context.epoch, 1, received.epoch) {
        let attempt = attempt.copy(at.alloc)?;
        return completes(at, received.epoch, terminal, context, attempt);
    }
    if is_reestablish(at, received.token) && is_epoch(at, context.epoch, 2, received.epoch) {
        let attempt = attempt.copy(at.alloc)?;
        return completes_again(at, received.epoch, terminal, context, attempt);
    }
    token_of_return(at, received, terminal, context, attempt)
}

fn token_while_serving<C: MessageCodec>(
    at: &Scope<'_, C>,
    received: Received,
    terminal: &Terminal,
    context: &Context,
) -> Result<Row, StepError>
    ensures { RowGives
        (token_while_serving (octet_way C.codec) at.now received.from received.token received.epoch
        terminal.now context.now) result }
{
    if is_return(at, received, context) {
        return returns(at, received.epoch, terminal, context);
    }
    Row::ignores(at, terminal, DropReason::Unexpected)
}

fn token_by_attempt<C: MessageCodec>(
    at: &Scope<'_, C>,
    received: Received,
    terminal: &Terminal,
    context: &Context,
) -> Result<Row, StepError>
    ensures { RowGives
        (token_by_attempt (octet_way C.codec) at.now received.from received.token received.epoch
        terminal.now context.now context.now.attempt) result }
{
    match &context.attempt {
        Some(attempt) => token_of_attempt(at, received, terminal, context, attempt),
        None => token_while_serving(at, received, terminal, context),
    }
}

/// An epoch that is accepted and finished is accepted again.
fn token_on<C: MessageCodec>(
    at: &Scope<'_, C>,
    received: Received,
    terminal: &Terminal,
) -> Result<Row, StepError>
    ensures { RowGives
        (token_on (octet_way C.codec) at.now received.from received.token received.epoch terminal.now
        terminal.now.context) result }
{
    let Some(context) = &terminal.context else {
        return Row::ignores(at, terminal, DropReason::NoContext);
    };
    if is_epoch(at, context.epoch, 0, received.epoch) && context.finished {
        let again = accepted_action(at, context, received.epoch)?;
        return Row::only_says(at, terminal, again);
    }
    token_by_attempt(at, received, terminal, context)
}

fn token_row<C: MessageCodec>(
    at: &Scope<'_, C>,
    from: NodeId,
    terminal: &Terminal,
    token: Token,
) -> Result<Row, StepError>
    ensures { RowGives
        (token_row (octet_way C.codec) at.now from terminal.now token) result }
{
    match token {
        Token::Complete { ue, epoch } => {
            let token = Token::Complete { ue, epoch };
            token_on(at, Received { from, token, epoch }, terminal)
        }
        Token::Reestablish { ue, epoch } => {
            let token = Token::Reestablish { ue, epoch };
            token_on(at, Received { from, token, epoch }, terminal)
        }
        Token::Command { .. } | Token::Accepted { .. } => {
            Row::ignores(at, terminal, DropReason::Unexpected)
        }
    }
}

fn token_ue<C: MessageCodec>(_at: &Scope<'_, C>, token: Token) -> UeId
    ensures { result ≡ token_ue (octet_way C.codec) token }
{
    match token {
        Token::Command { ue, .. }
        | Token::Complete { ue, .. }
        | Token::Reestablish { ue, .. }
        | Token::Accepted { ue, .. } => ue,
    }
}

/// A container came by a node: what is no token, or that of another terminal, is unexpected.
pub fn token_received<C: MessageCodec>(
    at: &Scope<'_, C>,
    from: NodeId,
    terminal: &Terminal,
    token: Option<Token>,
) -> Result<Row, StepError>
    ensures { RowGives
        (no_context_first (octet_way C.codec) at.now from terminal.now terminal.now.context token)
        result }
{
    if terminal.context.is_none() {
        return Row::ignores(at, terminal, DropReason::NoContext);
    }
    container_row(at, from, terminal, token)
}

fn container_row<C: MessageCodec>(
    at: &Scope<'_, C>,
    from: NodeId,
    terminal: &Terminal,
    token: Option<Token>,
) -> Result<Row, StepError>
    ensures { RowGives
        (container_row (octet_way C.codec) at.now from terminal.now token) result }
{
    let Some(token) = token else {
        return Row::ignores(at, terminal, DropReason::Unexpected);
    };
    if token_ue(at, token).0 != at.ue.0 {
        return Row::ignores(at, terminal, DropReason::Unexpected);
    }
    token_row(at, from, terminal, token)
}
