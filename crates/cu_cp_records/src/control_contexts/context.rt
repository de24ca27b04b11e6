//! A terminal: its context, and the greatest epoch that it told.

ghost use Rattle.std.specs.Prelude.{◌≡◌, Some, None, IfOk};
ghost use Rattle.unit_defs.specs.CuCpRecords.{attempted, serving, no_terminal, is_blank};

use crate::control_contexts::attempt::Attempt;
use gnb_types::items::Memory;
use gnb_types::names::SnBits;
use std::alloc::Global;
use std::marker::Model;
use unit_defs::StateName;

/// A terminal's context. The epoch is the one that was accepted last, where any was; it is finished where its acceptance was put. A
/// context that came by Xn is that of a target.
#[derive(Drop)]
pub struct Context {
    pub state: StateName,
    pub epoch: Option<u32>,
    pub finished: bool,
    pub up: u8,
    pub du: u8,
    pub sn: SnBits,
    pub bearers: u8,
    pub quota: u16,
    pub by_xn: bool,
    pub attempt: Option<Attempt>,
}

impl Model for Context {
    ghost use Rattle.unit_defs.specs.CuCpRecords.{CuCpContext};

    ghost Value = { CuCpContext };

    ghost view = { λ c. record {
      state = c.state;
      epoch = c.epoch;
      finished = c.finished;
      up = c.up;
      du = c.du;
      sn = c.sn;
      bearers = c.bearers;
      quota = c.quota;
      by_xn = c.by_xn;
      attempt = c.attempt;
    } };
}

impl Context {
    /// This context in another state, with this attempt.
    pub fn attempted(&self, state: StateName, attempt: Attempt) -> Context
        ensures { result ≡ attempted self.now state attempt }
    {
        self.with(state, Some(attempt))
    }

    /// This context, served and with no attempt.
    pub fn serving(&self) -> Context
        ensures { result ≡ serving self.now }
    {
        self.with(StateName::Serving, None)
    }

    fn with(&self, state: StateName, attempt: Option<Attempt>) -> Context
        ensures { result ≡ record self.now { state = state; attempt = attempt } }
    {
        Context {
            state,
            epoch: self.epoch,
            finished: self.finished,
            up: self.up,
            du: self.du,
            sn: self.sn,
            bearers: self.bearers,
            quota: self.quota,
            by_xn: self.by_xn,
            attempt,
        }
    }

    pub fn copy(&self, alloc: Global) -> Result<Context, Memory>
        ensures { IfOk result (λ c. c ≡ self.now) }
    {
        let attempt = copy_attempt(alloc, &self.attempt)?;
        Ok(self.with(self.state, attempt))
    }
}

fn copy_attempt(alloc: Global, attempt: &Option<Attempt>) -> Result<Option<Attempt>, Memory>
    ensures { IfOk result (λ copy. copy ≡ attempt.now) }
{
    match attempt {
        Some(attempt) => Ok(Some(attempt.copy(alloc)?)),
        None => Ok(None),
    }
}

/// All of one terminal but its requests and replies: its context, and the greatest epoch of a token that was taken.
#[derive(Drop)]
pub struct Terminal {
    pub context: Option<Context>,
    pub taken: Option<u32>,
}

impl Model for Terminal {
    ghost use Rattle.unit_defs.specs.CuCpRecords.{CuCpTerminal};

    ghost Value = { CuCpTerminal };

    ghost view = { λ t. record { context = t.context; taken = t.taken } };
}

impl Terminal {
    /// Nothing is known of it.
    pub fn none() -> Terminal
        ensures { result ≡ no_terminal }
    {
        Terminal {
            context: None,
            taken: None,
        }
    }

    /// Whether nothing is to be kept of it.
    pub fn is_blank(&self) -> bool
        ensures { result ≡ is_blank self.now }
    {
        self.context.is_none() && self.taken.is_none()
    }

    pub fn copy(&self, alloc: Global) -> Result<Terminal, Memory>
        ensures { IfOk result (λ t. t ≡ self.now) }
    {
        let context = copy_context(alloc, &self.context)?;
        Ok(Terminal {
            context,
            taken: self.taken,
        })
    }
}

fn copy_context(alloc: Global, context: &Option<Context>) -> Result<Option<Context>, Memory>
    ensures { IfOk result (λ copy. copy ≡ context.now) }
{
    match context {
        Some(context) => Ok(Some(context.copy(alloc)?)),
        None => Ok(None),
    }
}
