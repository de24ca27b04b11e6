//! After the command: the terminal arrives at the target, returns to its DU, or the other gNB has it.

ghost use Rattle.std.specs.Prelude.{◌≡◌, [], ◌∷◌};
ghost use Rattle.handover.specs.Attempts.{IsSent};
ghost use Rattle.handover.specs.Rows.{Meets, is_attach, is_own, tells_terminal, arrived, arrived_and_lost, return_while_commanded, is_let_go};

use crate::attempt::Attempt;
use crate::completing::{Completing, Returning};
use crate::names::{MessageName, ModeName, Refusal, Role, Send};
use crate::steps::Steps;
use std::marker::Model;
use unit_defs::AttemptKind;

/// The terminal was told to leave, or at an attach to access its first DU. Contracts see the attempt.
#[derive(Drop)]
pub struct Commanded {
    pub(crate) attempt: Attempt,
}

impl Model for Commanded {
    ghost use Rattle.handover.specs.declared.attempt.Attempt.{Attempt};

    ghost Value = { Attempt };

    ghost view = { λ s. s.attempt };
}

impl Commanded {
    /// A request that the state named was put with this instance: from then on its answer is awaited.
    pub fn sent(&mut self, message: MessageName, instance: u32)
        ensures { IsSent self.old message instance self.new }
    {
        self.attempt.sent(message, instance);
    }

    /// What the attempt is, and how far it is.
    pub fn attempt(&self) -> &Attempt
        ensures { result.now ≡ self.now }
    {
        &self.attempt
    }

    /// The command is put again.
    pub fn repeat(&self) -> Steps
        ensures { result ≡ tells_terminal ∷ [] }
    {
        Steps::new().and(Send::new(MessageName::DlRrcMessageTransfer, Role::ServingDu))
    }

    /// The terminal says at the target DU that it arrived with this epoch.
    pub fn arrived(self, epoch: u32) -> Result<(Completing, Steps), (Commanded, Refusal)>
        ensures { Meets (arrived self epoch) self result }
    {
        if !(self.is_own() && self.attempt.is_epoch(epoch)) {
            return Err((self, Refusal::Stale));
        }
        let request = MessageName::BearerContextModificationRequest;
        let switching = self.attempt.with_cu_up(Some(request));
        let steps = Steps::new().and(Send::modification(ModeName::Switch));
        Ok(if self.is_attach() {
            let path = MessageName::PathSwitchRequest;
            (
                Completing {
                    attempt: switching.with_core(Some(path)),
                },
                steps.and(Send::new(path, Role::Core)),
            )
        } else {
            (
                Completing {
                    attempt: switching.with_core(None),
                },
                steps.and(Send::new(MessageName::UeContextReleaseCommand, Role::ServingDu)),
            )
        })
    }

    /// The terminal asks for re-establishment with this epoch: with that of the attempt at the serving DU, with the one after it at the
    /// target DU, where it arrived and lost its radio.
    pub fn returned(self, epoch: u32) -> Result<(Returning, Steps), (Commanded, Refusal)>
        ensures { Meets (return_while_commanded self epoch) self result }
    {
        if self.attempt.is_epoch(epoch) && !self.is_attach() {
            return Ok(Returning::after(self.attempt));
        }
        if !(self.attempt.is_after(epoch) && self.is_own()) {
            return Err((self, Refusal::Stale));
        }
        Ok(self.arrived_and_lost(epoch))
    }

    fn arrived_and_lost(self, epoch: u32) -> (Returning, Steps)
        ensures attempt { result.0 ≡ (arrived_and_lost self epoch).0 }
        ensures steps { result.1 ≡ (arrived_and_lost self epoch).1 }
    {
        let modification = MessageName::UeContextModificationRequest;
        let moving = self.attempt.with_epoch(epoch).with_du(Some(modification));
        let asks = Send::new(modification, Role::TargetDu);
        if self.is_attach() {
            let path = MessageName::PathSwitchRequest;
            let steps = Steps::new().and(asks).and(Send::new(path, Role::Core));
            return (
                Returning {
                    attempt: moving.with_core(Some(path)),
                },
                steps,
            );
        }
        let release = Send::new(MessageName::UeContextReleaseCommand, Role::ServingDu);
        let steps = Steps::new().and(release).and(asks);
        (
            Returning {
                attempt: moving.with_core(None),
            },
            steps,
        )
    }

    /// The other CU-CP has the terminal, and lets the source go, by a request of this instance. It is one of an attempt between gNBs alone.
    pub fn released(self, _instance: u32) -> Result<(Completing, Steps), (Commanded, Refusal)>
        ensures { Meets (is_let_go self) self result }
    {
        if self.attempt.kind != AttemptKind::BetweenGnbs {
            return Err((self, Refusal::Stale));
        }
        let of_du = MessageName::UeContextReleaseCommand;
        let of_cu_up = MessageName::BearerContextReleaseCommand;
        let attempt = self.attempt.with_du(Some(of_du)).with_cu_up(Some(of_cu_up));
        let steps = Steps::new()
            .and(Send::new(MessageName::TransportConfirm, Role::OtherCu))
            .and(Send::new(of_du, Role::ServingDu))
            .and(Send::new(of_cu_up, Role::CuUp));
        Ok((Completing { attempt }, steps))
    }

    /// It can't be given up any more.
    pub fn cancel(self) -> (Commanded, Refusal)
        ensures same { result.0 ≡ self }
        ensures refusal { result.1 ≡ Refusal.TooLate }
    {
        (self, Refusal::TooLate)
    }

    fn is_attach(&self) -> bool
        ensures { result ≡ is_attach self.now.kind }
    {
        self.attempt.kind == AttemptKind::Attach
    }

    fn is_own(&self) -> bool
        ensures { result ≡ is_own self.now.kind }
    {
        self.is_attach() || self.attempt.kind == AttemptKind::BetweenDus
    }
}
