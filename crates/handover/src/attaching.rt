//! An attach (TS 38.401, 8.1): the bearers get their tunnels, then the DU gets the context.

ghost use Rattle.std.specs.Prelude.{◌≡◌};
ghost use Rattle.handover.specs.Attempts.{IsSent};
ghost use Rattle.handover.specs.Rows.{Meets, attaching, has_tunnels, attach_is_placed, attach_is_declined};

use crate::attempt::Attempt;
use crate::commanded::Commanded;
use crate::names::{MessageName, Refusal, Role, Send};
use crate::steps::Steps;
use gnb_types::names::UeId;
use gnb_types::plans::Plan;
use std::marker::Model;
use unit_defs::AttemptKind;

/// An attach is under way. Contracts see the attempt.
#[derive(Drop)]
pub struct Attaching {
    pub(crate) attempt: Attempt,
}

impl Model for Attaching {
    ghost use Rattle.handover.specs.declared.attempt.Attempt.{Attempt};

    ghost Value = { Attempt };

    ghost view = { λ s. s.attempt };
}

impl Attaching {
    /// The attach begins, with epoch 1.
    pub fn begin(ue: UeId, plan: Plan) -> (Attaching, Steps)
        ensures attempt { result.0 ≡ (attaching ue plan).0 }
        ensures steps { result.1 ≡ (attaching ue plan).1 }
    {
        let request = MessageName::BearerContextSetupRequest;
        let attempt = Attempt::new(ue, AttemptKind::Attach, 1, Some(plan)).with_cu_up(Some(
            request,
        ));
        let steps = Steps::new().and(Send::new(request, Role::CuUp));
        (Attaching { attempt }, steps)
    }

    /// A request that the state named was put with this instance: from then on its answer is awaited.
    pub fn sent(&mut self, message: MessageName, instance: u32)
        ensures { IsSent self.old message instance self.new }
    {
        self.attempt.sent(message, instance);
    }

    /// What the attempt is, and how far it is.
    pub fn attempt(&self) -> &Attempt
        ensures { result.now ≡ self.now }
    {
        &self.attempt
    }

    /// The CU-UP has set up the bearers: the DU is asked.
    pub fn tunnels(self, instance: u32) -> Result<(Attaching, Steps), (Attaching, Refusal)>
        ensures { Meets (has_tunnels self instance) self result }
    {
        if !self.attempt.awaits_cu_up(instance) {
            return Err((self, Refusal::Stale));
        }
        let request = MessageName::UeContextSetupRequest;
        let attempt = self.attempt.with_cu_up(None).with_du(Some(request));
        let steps = Steps::new().and(Send::new(request, Role::ServingDu));
        Ok((Attaching { attempt }, steps))
    }

    /// The DU has set up the context: the terminal is told to access it.
    pub fn placed(self, instance: u32) -> Result<(Commanded, Steps), (Attaching, Refusal)>
        ensures { Meets (attach_is_placed self instance) self result }
    {
        if !self.attempt.awaits_du(instance) {
            return Err((self, Refusal::Stale));
        }
        let attempt = self.attempt.with_du(None);
        let steps = Steps::new().and(Send::new(MessageName::DlRrcMessageTransfer, Role::ServingDu));
        Ok((Commanded { attempt }, steps))
    }

    /// The CU-UP could not set up the bearers.
    pub fn declined(self, instance: u32) -> Result<Steps, (Attaching, Refusal)>
        ensures { Meets (attach_is_declined self instance) self result }
    {
        if !self.attempt.awaits_cu_up(instance) {
            return Err((self, Refusal::Stale));
        }
        Ok(Steps::new())
    }
}
