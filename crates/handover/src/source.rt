//! A handover at its source, before the command: to another DU of the own gNB (TS 38.401, 8.2.1), or to the other gNB (TS 38.423, 8.2.1).

ghost use Rattle.std.specs.Prelude.{◌≡◌, [], ◌∷◌};
ghost use Rattle.handover.specs.Attempts.{IsSent};
ghost use Rattle.handover.specs.Rows.{Meets, preparing, move_has_uplinks, move_is_placed, is_acknowledged, preparation_is_declined, cancels, is_frozen, freeze_is_declined, cancel_while_preparing, cancel_while_frozen, return_while_preparing, return_while_prepared, return_while_frozen, tells_terminal};

use crate::attempt::Attempt;
use crate::commanded::Commanded;
use crate::completing::Returning;
use crate::names::{MessageName, ModeName, Refusal, Role, Send};
use crate::steps::Steps;
use gnb_types::names::{Gnb, UeId};
use gnb_types::plans::Plan;
use std::marker::Model;
use unit_defs::AttemptKind;

/// A handover was begun. Contracts see the attempt.
#[derive(Drop)]
pub struct Preparing {
    pub(crate) attempt: Attempt,
}

impl Model for Preparing {
    ghost use Rattle.handover.specs.declared.attempt.Attempt.{Attempt};

    ghost Value = { Attempt };

    ghost view = { λ s. s.attempt };
}

impl Preparing {
    /// The handover begins, at the gNB `home`, of a terminal whose epoch `epoch` was accepted last. It is one between DUs where the goal is
    /// at the same gNB.
    pub fn begin(ue: UeId, home: Gnb, epoch: u32, goal: Plan) -> (Preparing, Steps)
        ensures attempt { result.0 ≡ (preparing ue home epoch goal).0 }
        ensures steps { result.1 ≡ (preparing ue home epoch goal).1 }
    {
        let next = u64::from(epoch) + 1;
        if goal.gnb == home {
            let attempt = Attempt::new(ue, AttemptKind::BetweenDus, next, Some(goal)).with_cu_up(
                Some(MessageName::BearerContextModificationRequest),
            );
            let steps = Steps::new().and(Send::modification(ModeName::Uplinks));
            return (Preparing { attempt }, steps);
        }
        let request = MessageName::HandoverRequest;
        let attempt = Attempt::new(ue, AttemptKind::BetweenGnbs, next, Some(goal)).with_other_cu(
            Some(request),
        );
        let steps = Steps::new().and(Send::new(request, Role::OtherCu));
        (Preparing { attempt }, steps)
    }

    /// A request that the state named was put with this instance: from then on its answer is awaited.
    pub fn sent(&mut self, message: MessageName, instance: u32)
        ensures { IsSent self.old message instance self.new }
    {
        self.attempt.sent(message, instance);
    }

    /// What the attempt is, and how far it is.
    pub fn attempt(&self) -> &Attempt
        ensures { result.now ≡ self.now }
    {
        &self.attempt
    }

    /// Between DUs: the CU-UP has further uplinks, and the target DU is asked.
    pub fn uplinks(self, instance: u32) -> Result<(Preparing, Steps), (Preparing, Refusal)>
        ensures { Meets (move_has_uplinks self instance) self result }
    {
        if !self.attempt.awaits_cu_up(instance) {
            return Err((self, Refusal::Stale));
        }
        let request = MessageName::UeContextSetupRequest;
        let attempt = self.attempt.with_cu_up(None).with_du(Some(request));
        let steps = Steps::new().and(Send::new(request, Role::TargetDu));
        Ok((Preparing { attempt }, steps))
    }

    /// Between DUs: the target DU has set up the context. Nothing is frozen, but what follows is the same.
    pub fn placed(self, instance: u32) -> Result<(Frozen, Steps), (Preparing, Refusal)>
        ensures { Meets (move_is_placed self instance) self result }
    {
        if !self.attempt.awaits_du(instance) {
            return Err((self, Refusal::Stale));
        }
        let attempt = self.attempt.with_du(None);
        Ok((Frozen { attempt }, Steps::new()))
    }

    /// Between gNBs: the target is ready, and the own CU-UP is frozen.
    pub fn acknowledged(self, instance: u32) -> Result<(Prepared, Steps), (Preparing, Refusal)>
        ensures { Meets (is_acknowledged self instance) self result }
    {
        if !self.attempt.awaits_other_cu(instance) {
            return Err((self, Refusal::Stale));
        }
        let attempt = self
            .attempt
            .with_other_cu(None)
            .with_cu_up(Some(MessageName::BearerContextModificationRequest));
        let steps = Steps::new().and(Send::modification(ModeName::Freeze));
        Ok((Prepared { attempt }, steps))
    }

    /// Between gNBs: the target refused.
    pub fn declined(self, instance: u32) -> Result<Steps, (Preparing, Refusal)>
        ensures { Meets (preparation_is_declined self instance) self result }
    {
        if !self.attempt.awaits_other_cu(instance) {
            return Err((self, Refusal::Stale));
        }
        Ok(Steps::new())
    }

    /// The deadline of the request has passed.
    pub fn expire(self) -> Steps
        ensures { result ≡ cancels }
    {
        Steps::new().and(Send::new(MessageName::HandoverCancel, Role::OtherCu))
    }

    /// It is to be given up. Between DUs the answers are awaited first.
    pub fn cancel(self) -> Result<Steps, (Preparing, Refusal)>
        ensures { Meets (cancel_while_preparing self) self result }
    {
        if self.attempt.kind == AttemptKind::BetweenDus {
            return Err((self, Refusal::Busy));
        }
        Ok(Steps::new().and(Send::new(MessageName::HandoverCancel, Role::OtherCu)))
    }

    /// The terminal asks for re-establishment at the serving DU with this epoch.
    pub fn returned(self, epoch: u32) -> Result<(Returning, Steps), (Preparing, Refusal)>
        ensures { Meets (return_while_preparing self epoch) self result }
    {
        if !self.attempt.is_epoch(epoch) {
            return Err((self, Refusal::Stale));
        }
        if self.attempt.kind == AttemptKind::BetweenDus {
            return Err((self, Refusal::Busy));
        }
        Ok(Returning::after(self.attempt))
    }
}

/// The other gNB is ready, and the own CU-UP is being frozen. Contracts see the attempt.
#[derive(Drop)]
pub struct Prepared {
    pub(crate) attempt: Attempt,
}

impl Model for Prepared {
    ghost use Rattle.handover.specs.declared.attempt.Attempt.{Attempt};

    ghost Value = { Attempt };

    ghost view = { λ s. s.attempt };
}

impl Prepared {
    /// A request that the state named was put with this instance: from then on its answer is awaited.
    pub fn sent(&mut self, message: MessageName, instance: u32)
        ensures { IsSent self.old message instance self.new }
    {
        self.attempt.sent(message, instance);
    }

    /// What the attempt is, and how far it is.
    pub fn attempt(&self) -> &Attempt
        ensures { result.now ≡ self.now }
    {
        &self.attempt
    }

    /// All is frozen: the SN status goes to the target.
    pub fn frozen(self, instance: u32) -> Result<(Frozen, Steps), (Prepared, Refusal)>
        ensures { Meets (is_frozen self instance) self result }
    {
        if !self.attempt.awaits_cu_up(instance) {
            return Err((self, Refusal::Stale));
        }
        let attempt = self.attempt.with_cu_up(None);
        let steps = Steps::new().and(Send::new(MessageName::SnStatusTransfer, Role::OtherCu));
        Ok((Frozen { attempt }, steps))
    }

    /// The CU-UP could not freeze the bearers.
    pub fn declined(self, instance: u32) -> Result<Steps, (Prepared, Refusal)>
        ensures { Meets (freeze_is_declined self instance) self result }
    {
        if !self.attempt.awaits_cu_up(instance) {
            return Err((self, Refusal::Stale));
        }
        Ok(Steps::new().and(Send::new(MessageName::HandoverCancel, Role::OtherCu)))
    }

    /// It can't be given up before the answer of the CU-UP.
    pub fn cancel(self) -> (Prepared, Refusal)
        ensures same { result.0 ≡ self }
        ensures refusal { result.1 ≡ Refusal.Busy }
    {
        (self, Refusal::Busy)
    }

    /// The terminal asks for re-establishment at the serving DU with this epoch, which comes too early.
    pub fn returned(self, epoch: u32) -> (Prepared, Refusal)
        ensures same { result.0 ≡ self }
        ensures refusal { result.1 ≡ return_while_prepared self epoch }
    {
        let refusal = if self.attempt.is_epoch(epoch) {
            Refusal::Busy
        } else {
            Refusal::Stale
        };
        (self, refusal)
    }
}

/// All is ready for the command. Contracts see the attempt.
#[derive(Drop)]
pub struct Frozen {
    pub(crate) attempt: Attempt,
}

impl Model for Frozen {
    ghost use Rattle.handover.specs.declared.attempt.Attempt.{Attempt};

    ghost Value = { Attempt };

    ghost view = { λ s. s.attempt };
}

impl Frozen {
    /// A request that the state named was put with this instance: from then on its answer is awaited.
    pub fn sent(&mut self, message: MessageName, instance: u32)
        ensures { IsSent self.old message instance self.new }
    {
        self.attempt.sent(message, instance);
    }

    /// What the attempt is, and how far it is.
    pub fn attempt(&self) -> &Attempt
        ensures { result.now ≡ self.now }
    {
        &self.attempt
    }

    /// The terminal is told to leave, with the epoch of the attempt.
    pub fn command(self) -> (Commanded, Steps)
        ensures attempt { result.0 ≡ self }
        ensures steps { result.1 ≡ tells_terminal ∷ [] }
    {
        let steps = Steps::new().and(Send::new(MessageName::DlRrcMessageTransfer, Role::ServingDu));
        (
            Commanded {
                attempt: self.attempt,
            },
            steps,
        )
    }

    /// It is given up: what was frozen is resumed.
    pub fn cancel(self) -> Steps
        ensures { result ≡ cancel_while_frozen self }
    {
        if self.attempt.kind == AttemptKind::BetweenDus {
            return Steps::new().and(Send::new(
                MessageName::UeContextReleaseCommand,
                Role::TargetDu,
            ));
        }
        Steps::new()
            .and(Send::new(MessageName::HandoverCancel, Role::OtherCu))
            .and(Send::modification(ModeName::Resume))
    }

    /// The terminal asks for re-establishment at the serving DU with this epoch.
    pub fn returned(self, epoch: u32) -> Result<(Returning, Steps), (Frozen, Refusal)>
        ensures { Meets (return_while_frozen self epoch) self result }
    {
        if !self.attempt.is_epoch(epoch) {
            return Err((self, Refusal::Stale));
        }
        Ok(Returning::after(self.attempt))
    }
}
