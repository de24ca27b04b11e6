//! What all states keep: what the attempt is, and the answers that it awaits.

ghost use Rattle.std.specs.Prelude.{◌≡◌, Some, None};
ghost use Rattle.handover.specs.Attempts.{new_attempt, is_awaited, is_epoch, is_after, SlotAfter, IsSent, with_du, with_cu_up, with_core, with_other_cu, is_finished, unanswered};
ghost use Rattle.handover.specs.Rows.{after_switch};

use crate::names::MessageName;
use gnb_types::names::UeId;
use gnb_types::plans::Plan;
use unit_defs::AttemptKind;

/// A request whose answer is awaited, and its instance once it was put.
#[derive(Clone, Copy)]
pub struct Awaited {
    pub request: MessageName,
    pub instance: Option<u32>,
}

/// The answers that are awaited, at most one of each node.
#[derive(Clone, Copy)]
pub struct Awaits {
    pub du: Option<Awaited>,
    pub cu_up: Option<Awaited>,
    pub core: Option<Awaited>,
    pub other_cu: Option<Awaited>,
}

/// What an attempt is, and how far it is. A state shows it, and nothing but the calls of the states changes it.
#[derive(Clone, Copy)]
pub struct Attempt {
    pub ue: UeId,
    pub kind: AttemptKind,
    /// The epoch that the terminal has once this is over. Where the one before was the last one there is no such epoch.
    pub epoch: u64,
    /// Where the terminal is to go; None for a return.
    pub goal: Option<Plan>,
    /// The bearers were switched.
    pub switched: bool,
    pub awaits: Awaits,
}

fn is_awaited(slot: Option<Awaited>, instance: u32) -> bool
    ensures { result ≡ is_awaited slot instance }
{
    match slot {
        Some(
            Awaited {
                instance: Some(awaited),
                ..
            },
        ) => awaited == instance,
        Some(Awaited { instance: None, .. }) => false,
        None => false,
    }
}

fn after_sent(slot: Option<Awaited>, request: MessageName, instance: u32) -> Option<Awaited>
    ensures { SlotAfter slot request instance result }
{
    match slot {
        Some(awaited) if awaited.request == request => Some(Awaited {
            request,
            instance: Some(instance),
        }),
        _ => slot,
    }
}

impl Attempt {
    pub(crate) fn new(ue: UeId, kind: AttemptKind, epoch: u64, goal: Option<Plan>) -> Attempt
        ensures { result ≡ new_attempt ue kind epoch goal }
    {
        Attempt {
            ue,
            kind,
            epoch,
            goal,
            switched: false,
            awaits: Awaits {
                du: None,
                cu_up: None,
                core: None,
                other_cu: None,
            },
        }
    }

    /// A request that the attempt named was put with this instance.
    pub(crate) fn sent(&mut self, request: MessageName, instance: u32)
        ensures { IsSent self.old request instance self.new }
    {
        self.awaits = Awaits {
            du: after_sent(self.awaits.du, request, instance),
            cu_up: after_sent(self.awaits.cu_up, request, instance),
            core: after_sent(self.awaits.core, request, instance),
            other_cu: after_sent(self.awaits.other_cu, request, instance),
        };
    }

    // ---- whether an answer with this instance is awaited

    pub(crate) fn awaits_du(&self, instance: u32) -> bool
        ensures { result ≡ is_awaited self.now.awaits.du instance }
    {
        is_awaited(self.awaits.du, instance)
    }

    pub(crate) fn awaits_cu_up(&self, instance: u32) -> bool
        ensures { result ≡ is_awaited self.now.awaits.cu_up instance }
    {
        is_awaited(self.awaits.cu_up, instance)
    }

    pub(crate) fn awaits_core(&self, instance: u32) -> bool
        ensures { result ≡ is_awaited self.now.awaits.core instance }
    {
        is_awaited(self.awaits.core, instance)
    }

    pub(crate) fn awaits_other_cu(&self, instance: u32) -> bool
        ensures { result ≡ is_awaited self.now.awaits.other_cu instance }
    {
        is_awaited(self.awaits.other_cu, instance)
    }

    // ---- what is awaited of a node from here on

    pub(crate) fn with_du(mut self, request: Option<MessageName>) -> Attempt
        ensures { result ≡ with_du request self }
    {
        self.awaits.du = unanswered(request);
        self
    }

    pub(crate) fn with_cu_up(mut self, request: Option<MessageName>) -> Attempt
        ensures { result ≡ with_cu_up request self }
    {
        self.awaits.cu_up = unanswered(request);
        self
    }

    pub(crate) fn with_core(mut self, request: Option<MessageName>) -> Attempt
        ensures { result ≡ with_core request self }
    {
        self.awaits.core = unanswered(request);
        self
    }

    pub(crate) fn with_other_cu(mut self, request: Option<MessageName>) -> Attempt
        ensures { result ≡ with_other_cu request self }
    {
        self.awaits.other_cu = unanswered(request);
        self
    }

    /// The bearers were switched.
    pub(crate) fn after_switch(mut self) -> Attempt
        ensures { result ≡ after_switch self }
    {
        self.switched = true;
        self.with_cu_up(None)
    }

    // ---- epochs, which are compared without wrapping

    /// Whether this is the epoch of the attempt.
    pub(crate) fn is_epoch(&self, epoch: u32) -> bool
        ensures { result ≡ is_epoch self.now epoch }
    {
        self.epoch == u64::from(epoch)
    }

    /// Whether this is the epoch after that of the attempt.
    pub(crate) fn is_after(&self, epoch: u32) -> bool
        ensures { result ≡ is_after self.now epoch }
    {
        epoch > 0 && u64::from(epoch) - 1 == self.epoch
    }

    pub(crate) fn with_epoch(mut self, epoch: u32) -> Attempt
        ensures { result ≡ record self { epoch = epoch } }
    {
        self.epoch = u64::from(epoch);
        self
    }

    /// Whether the bearers were switched, and no path switch is awaited any more.
    pub(crate) fn is_finished(&self) -> bool
        ensures { result ≡ is_finished self.now }
    {
        self.switched && self.awaits.core.is_none()
    }
}

fn unanswered(request: Option<MessageName>) -> Option<Awaited>
    ensures { result ≡ unanswered request }
{
    match request {
        Some(request) => Some(Awaited {
            request,
            instance: None,
        }),
        None => None,
    }
}
