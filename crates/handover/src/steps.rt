//! The messages of a step, in order.

ghost use Rattle.std.specs.Prelude.{◌≡◌, ◌<◌, [], ◌∷◌, ◌++◌, length};

use crate::names::{MessageName, Role, Send};
use std::marker::Model;

/// How many messages a step has at most.
const MOST: usize = 4;

/// At most four messages. Contracts see the list.
#[derive(Drop)]
pub struct Steps {
    count: usize,
    sends: [Send; MOST],
}

impl Model for Steps {
    ghost use Rattle.std.specs.Prelude.{◌≤◌, List, take};
    ghost use Rattle.handover.specs.declared.names.Send.{Send};

    ghost Value = { List Send };

    ghost view = { λ s. take s.count s.sends };

    ghost invariant = { λ s. s.count ≤ 4 };
}

impl Steps {
    /// No message.
    pub(crate) fn new() -> Steps
        ensures { result ≡ [] }
    {
        // What stands past the count is no message of the step.
        let unused = Send {
            message: MessageName::TransportConfirm,
            mode: None,
            to: Role::OtherCu,
        };
        Steps {
            count: 0,
            sends: [unused; MOST],
        }
    }

    /// One message more.
    pub(crate) fn and(mut self, send: Send) -> Steps
        requires { length self < 4 }
        ensures { result ≡ self ++ send ∷ [] }
    {
        self.sends[self.count] = send;
        self.count += 1;
        self
    }

    pub fn as_slice(&self) -> &[Send]
        ensures { result.now ≡ self.now }
    {
        &self.sends[..self.count]
    }
}
