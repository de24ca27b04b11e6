//! After an arrival or a return: the bearers are switched, the epoch is accepted, and the path is switched. And the source of a handover
//! that lets go.

ghost use Rattle.std.specs.Prelude.{◌≡◌};
ghost use Rattle.handover.specs.Attempts.{IsSent};
ghost use Rattle.handover.specs.Rows.{Meets, return_begins, returned, is_moved, is_switched, path_is_switched, is_released_by, is_switched_by, is_completed_by, after_switch};

use crate::attempt::Attempt;
use crate::names::{MessageName, ModeName, Refusal, Role, Send};
use crate::steps::Steps;
use gnb_types::names::{NodeId, UeId};
use std::marker::Model;
use unit_defs::AttemptKind;

/// The terminal came back, and its bearers are being switched. Contracts see the attempt.
#[derive(Drop)]
pub struct Returning {
    pub(crate) attempt: Attempt,
}

impl Model for Returning {
    ghost use Rattle.handover.specs.declared.attempt.Attempt.{Attempt};

    ghost Value = { Attempt };

    ghost view = { λ s. s.attempt };
}

impl Returning {
    /// A terminal that is served asks for re-establishment with this epoch.
    pub fn begin(ue: UeId, epoch: u32) -> (Returning, Steps)
        ensures attempt { result.0 ≡ (return_begins ue epoch).0 }
        ensures steps { result.1 ≡ (return_begins ue epoch).1 }
    {
        Returning::of(ue, u64::from(epoch))
    }

    fn of(ue: UeId, epoch: u64) -> (Returning, Steps)
        ensures attempt { result.0 ≡ (return_begins ue epoch).0 }
        ensures steps { result.1 ≡ (return_begins ue epoch).1 }
    {
        let request = MessageName::UeContextModificationRequest;
        let attempt = Attempt::new(ue, AttemptKind::Return, epoch, None).with_du(Some(request));
        let steps = Steps::new().and(Send::new(request, Role::ServingDu));
        (Returning { attempt }, steps)
    }

    /// The terminal is back from this attempt, which is given up.
    pub(crate) fn after(given_up: Attempt) -> (Returning, Steps)
        ensures attempt { result.0 ≡ (returned given_up).0 }
        ensures steps { result.1 ≡ (returned given_up).1 }
    {
        let (returning, steps) = Returning::of(given_up.ue, given_up.epoch);
        let lets_go = if given_up.kind == AttemptKind::BetweenDus {
            Send::new(MessageName::UeContextReleaseCommand, Role::TargetDu)
        } else {
            Send::new(MessageName::HandoverCancel, Role::OtherCu)
        };
        (returning, steps.and(lets_go))
    }

    /// A request that the state named was put with this instance: from then on its answer is awaited.
    pub fn sent(&mut self, message: MessageName, instance: u32)
        ensures { IsSent self.old message instance self.new }
    {
        self.attempt.sent(message, instance);
    }

    /// What the attempt is, and how far it is.
    pub fn attempt(&self) -> &Attempt
        ensures { result.now ≡ self.now }
    {
        &self.attempt
    }

    /// The DU has new downlinks: the bearers are switched.
    pub fn moved(self, instance: u32) -> Result<(Returning, Steps), (Returning, Refusal)>
        ensures { Meets (is_moved self instance) self result }
    {
        if !self.attempt.awaits_du(instance) {
            return Err((self, Refusal::Stale));
        }
        let attempt = self
            .attempt
            .with_du(None)
            .with_cu_up(Some(MessageName::BearerContextModificationRequest));
        let steps = Steps::new().and(Send::modification(ModeName::Switch));
        Ok((Returning { attempt }, steps))
    }

    /// The bearers were switched: the epoch is accepted. None where nothing more is awaited.
    pub fn switched(self, instance: u32) -> Result<(Option<Returning>, Steps), (Returning, Refusal)>
        ensures { Meets (is_switched self instance) self result }
    {
        if !self.attempt.awaits_cu_up(instance) {
            return Err((self, Refusal::Stale));
        }
        let attempt = self.attempt.after_switch();
        let steps = Steps::new().and(Send::new(MessageName::DlRrcMessageTransfer, Role::ServingDu));
        if attempt.is_finished() {
            return Ok((None, steps));
        }
        Ok((Some(Returning { attempt }), steps))
    }

    /// The core has switched the path. None where nothing more is awaited.
    pub fn path_done(
        self,
        instance: u32,
    ) -> Result<(Option<Returning>, Steps), (Returning, Refusal)>
        ensures { Meets (path_is_switched self instance) self result }
    {
        if !self.attempt.awaits_core(instance) {
            return Err((self, Refusal::Stale));
        }
        let attempt = self.attempt.with_core(None);
        let steps = Steps::new();
        if attempt.is_finished() {
            return Ok((None, steps));
        }
        Ok((Some(Returning { attempt }), steps))
    }
}

/// The terminal arrived, and what it left is being released. Contracts see the attempt.
#[derive(Drop)]
pub struct Completing {
    pub(crate) attempt: Attempt,
}

impl Model for Completing {
    ghost use Rattle.handover.specs.declared.attempt.Attempt.{Attempt};

    ghost Value = { Attempt };

    ghost view = { λ s. s.attempt };
}

impl Completing {
    /// A request that the state named was put with this instance: from then on its answer is awaited.
    pub fn sent(&mut self, message: MessageName, instance: u32)
        ensures { IsSent self.old message instance self.new }
    {
        self.attempt.sent(message, instance);
    }

    /// What the attempt is, and how far it is.
    pub fn attempt(&self) -> &Attempt
        ensures { result.now ≡ self.now }
    {
        &self.attempt
    }

    /// An answer of this node. None where nothing more is awaited.
    pub fn answered(
        self,
        from: NodeId,
        instance: u32,
    ) -> Result<(Option<Completing>, Steps), (Completing, Refusal)>
        ensures { Meets (is_completed_by self from instance) self result }
    {
        if self.attempt.kind == AttemptKind::BetweenGnbs {
            return self.released_by(from, instance);
        }
        self.switched_by(from, instance)
    }

    /// The other gNB has the terminal: it is over where DU and CU-UP have answered.
    fn released_by(
        self,
        from: NodeId,
        instance: u32,
    ) -> Result<(Option<Completing>, Steps), (Completing, Refusal)>
        ensures { Meets (is_released_by self from instance) self result }
    {
        let attempt = match from {
            NodeId::Du(_, _) if self.attempt.awaits_du(instance) => self.attempt.with_du(None),
            NodeId::CuUp(_, _) if self.attempt.awaits_cu_up(instance) => self
                .attempt
                .with_cu_up(None),
            _ => return Err((self, Refusal::Stale)),
        };
        if attempt.awaits.du.is_some() || attempt.awaits.cu_up.is_some() {
            return Ok((Some(Completing { attempt }), Steps::new()));
        }
        Ok((None, Steps::new()))
    }

    /// The terminal is at the target DU: it is over where the bearers and the path were switched.
    fn switched_by(
        self,
        from: NodeId,
        instance: u32,
    ) -> Result<(Option<Completing>, Steps), (Completing, Refusal)>
        ensures { Meets (is_switched_by self from instance) self result }
    {
        let (attempt, steps) = match from {
            NodeId::CuUp(_, _) if self.attempt.awaits_cu_up(instance) => {
                let accepted = Send::new(MessageName::DlRrcMessageTransfer, Role::ServingDu);
                (self.attempt.after_switch(), Steps::new().and(accepted))
            }
            NodeId::Core if self.attempt.awaits_core(instance) => {
                (self.attempt.with_core(None), Steps::new())
            }
            _ => return Err((self, Refusal::Stale)),
        };
        if attempt.is_finished() {
            return Ok((None, steps));
        }
        Ok((Some(Completing { attempt }), steps))
    }
}
