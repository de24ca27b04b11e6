//! A handover between gNBs at its target (TS 38.423, 8.2.1).

ghost use Rattle.std.specs.Prelude.{◌≡◌};
ghost use Rattle.handover.specs.Attempts.{IsSent, is_finished};
ghost use Rattle.handover.specs.Rows.{Meets, offered, has_tunnels, offer_is_placed, offer_is_declined, cancel_of_offer, cancel_of_ready, arrives, is_moved, arrival_is_switched, path_of_arrival_is_switched};

use crate::attempt::Attempt;
use crate::names::{MessageName, ModeName, Refusal, Role, Send};
use crate::steps::Steps;
use gnb_types::names::UeId;
use gnb_types::plans::Plan;
use message_types::Token;
use std::marker::Model;
use unit_defs::AttemptKind;

/// A handover was offered, and isn't ready. Contracts see the attempt.
#[derive(Drop)]
pub struct Offered {
    pub(crate) attempt: Attempt,
}

impl Model for Offered {
    ghost use Rattle.handover.specs.declared.attempt.Attempt.{Attempt};

    ghost Value = { Attempt };

    ghost view = { λ s. s.attempt };
}

impl Offered {
    /// The other gNB asks, with the epoch that the terminal will have.
    pub fn begin(ue: UeId, epoch: u32, plan: Plan) -> (Offered, Steps)
        ensures attempt { result.0 ≡ (offered ue epoch plan).0 }
        ensures steps { result.1 ≡ (offered ue epoch plan).1 }
    {
        let request = MessageName::BearerContextSetupRequest;
        let attempt = Attempt::new(ue, AttemptKind::Offer, u64::from(epoch), Some(plan)).with_cu_up(
            Some(request),
        );
        let steps = Steps::new().and(Send::new(request, Role::CuUp));
        (Offered { attempt }, steps)
    }

    /// A request that the state named was put with this instance: from then on its answer is awaited.
    pub fn sent(&mut self, message: MessageName, instance: u32)
        ensures { IsSent self.old message instance self.new }
    {
        self.attempt.sent(message, instance);
    }

    /// What the attempt is, and how far it is.
    pub fn attempt(&self) -> &Attempt
        ensures { result.now ≡ self.now }
    {
        &self.attempt
    }

    /// The CU-UP has set up the bearers: the DU is asked.
    pub fn tunnels(self, instance: u32) -> Result<(Offered, Steps), (Offered, Refusal)>
        ensures { Meets (has_tunnels self instance) self result }
    {
        if !self.attempt.awaits_cu_up(instance) {
            return Err((self, Refusal::Stale));
        }
        let request = MessageName::UeContextSetupRequest;
        let attempt = self.attempt.with_cu_up(None).with_du(Some(request));
        let steps = Steps::new().and(Send::new(request, Role::ServingDu));
        Ok((Offered { attempt }, steps))
    }

    /// The DU has set up the context: all is ready here.
    pub fn placed(self, instance: u32) -> Result<(Ready, Steps), (Offered, Refusal)>
        ensures { Meets (offer_is_placed self instance) self result }
    {
        if !self.attempt.awaits_du(instance) {
            return Err((self, Refusal::Stale));
        }
        let attempt = self.attempt.with_du(None);
        let ready = Send::new(MessageName::HandoverRequestAcknowledge, Role::OtherCu);
        Ok((Ready { attempt }, Steps::new().and(ready)))
    }

    /// The CU-UP could not set up the bearers.
    pub fn declined(self, instance: u32) -> Result<Steps, (Offered, Refusal)>
        ensures { Meets (offer_is_declined self instance) self result }
    {
        if !self.attempt.awaits_cu_up(instance) {
            return Err((self, Refusal::Stale));
        }
        Ok(Steps::new().and(Send::new(MessageName::HandoverPreparationFailure, Role::OtherCu)))
    }

    /// The source gives it up: the units that were begun are released.
    pub fn cancel(self) -> Steps
        ensures { result ≡ cancel_of_offer self }
    {
        if self.attempt.awaits.du.is_some() {
            return release_of_both();
        }
        Steps::new()
            .and(Send::new(MessageName::TransportConfirm, Role::OtherCu))
            .and(Send::new(MessageName::BearerContextReleaseCommand, Role::CuUp))
    }
}

fn release_of_both() -> Steps
    ensures { result ≡ cancel_of_ready }
{
    Steps::new()
        .and(Send::new(MessageName::TransportConfirm, Role::OtherCu))
        .and(Send::new(MessageName::UeContextReleaseCommand, Role::ServingDu))
        .and(Send::new(MessageName::BearerContextReleaseCommand, Role::CuUp))
}

/// All is ready, and the terminal is awaited. Contracts see the attempt.
#[derive(Drop)]
pub struct Ready {
    pub(crate) attempt: Attempt,
}

impl Model for Ready {
    ghost use Rattle.handover.specs.declared.attempt.Attempt.{Attempt};

    ghost Value = { Attempt };

    ghost view = { λ s. s.attempt };
}

impl Ready {
    /// A request that the state named was put with this instance: from then on its answer is awaited.
    pub fn sent(&mut self, message: MessageName, instance: u32)
        ensures { IsSent self.old message instance self.new }
    {
        self.attempt.sent(message, instance);
    }

    /// What the attempt is, and how far it is.
    pub fn attempt(&self) -> &Attempt
        ensures { result.now ≡ self.now }
    {
        &self.attempt
    }

    /// The terminal says at the DU that it arrived; or that it arrived and lost its radio since.
    pub fn arrived(self, token: &Token) -> Result<(Arrived, Steps), (Ready, Refusal)>
        ensures { Meets (arrives self token.now) self result }
    {
        let path = MessageName::PathSwitchRequest;
        let (attempt, send) = match *token {
            Token::Complete { epoch, .. } if self.attempt.is_epoch(epoch) => {
                let request = MessageName::BearerContextModificationRequest;
                let attempt = self.attempt.with_cu_up(Some(request));
                (attempt, Send::modification(ModeName::Switch))
            }
            Token::Reestablish { epoch, .. } if self.attempt.is_after(epoch) => {
                let request = MessageName::UeContextModificationRequest;
                let attempt = self.attempt.with_epoch(epoch).with_du(Some(request));
                (attempt, Send::new(request, Role::ServingDu))
            }
            _ => return Err((self, Refusal::Stale)),
        };
        let steps = Steps::new().and(send).and(Send::new(path, Role::Core));
        let arrived = Arrived {
            attempt: attempt.with_core(Some(path)),
        };
        Ok((arrived, steps))
    }

    /// The source gives it up: both units are released.
    pub fn cancel(self) -> Steps
        ensures { result ≡ cancel_of_ready }
    {
        release_of_both()
    }
}

/// The terminal is here, and its bearers and its path are being switched. Contracts see the attempt.
#[derive(Drop)]
pub struct Arrived {
    pub(crate) attempt: Attempt,
}

impl Model for Arrived {
    ghost use Rattle.handover.specs.declared.attempt.Attempt.{Attempt};

    ghost Value = { Attempt };

    ghost view = { λ s. s.attempt };
}

impl Arrived {
    /// A request that the state named was put with this instance: from then on its answer is awaited.
    pub fn sent(&mut self, message: MessageName, instance: u32)
        ensures { IsSent self.old message instance self.new }
    {
        self.attempt.sent(message, instance);
    }

    /// What the attempt is, and how far it is.
    pub fn attempt(&self) -> &Attempt
        ensures { result.now ≡ self.now }
    {
        &self.attempt
    }

    /// The DU has new downlinks: the bearers are switched.
    pub fn moved(self, instance: u32) -> Result<(Arrived, Steps), (Arrived, Refusal)>
        ensures { Meets (is_moved self instance) self result }
    {
        if !self.attempt.awaits_du(instance) {
            return Err((self, Refusal::Stale));
        }
        let attempt = self
            .attempt
            .with_du(None)
            .with_cu_up(Some(MessageName::BearerContextModificationRequest));
        let steps = Steps::new().and(Send::modification(ModeName::Switch));
        Ok((Arrived { attempt }, steps))
    }

    /// The bearers were switched: the epoch is accepted.
    pub fn switched(self, instance: u32) -> Result<(Arrived, Steps), (Arrived, Refusal)>
        ensures { Meets (arrival_is_switched self instance) self result }
    {
        if !self.attempt.awaits_cu_up(instance) {
            return Err((self, Refusal::Stale));
        }
        let attempt = self.attempt.after_switch();
        let steps = Steps::new().and(Send::new(MessageName::DlRrcMessageTransfer, Role::ServingDu));
        Ok((Arrived { attempt }, steps))
    }

    /// The core has switched the path: the source is let go.
    pub fn path_done(self, instance: u32) -> Result<(Arrived, Steps), (Arrived, Refusal)>
        ensures { Meets (path_of_arrival_is_switched self instance) self result }
    {
        if !self.attempt.awaits_core(instance) {
            return Err((self, Refusal::Stale));
        }
        let attempt = self.attempt.with_core(None);
        let steps = Steps::new().and(Send::new(MessageName::UeContextRelease, Role::OtherCu));
        Ok((Arrived { attempt }, steps))
    }

    /// Whether nothing more is awaited: the terminal is served here.
    pub fn finished(&self) -> bool
        ensures { result ≡ is_finished self.now }
    {
        self.attempt.is_finished()
    }
}
