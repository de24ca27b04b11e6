//! A request that waits.

use std::marker::Model;
use unit_messages::Message;

/// A request without its instance, its deadline in ticks from when it is put, and whether an attempt awaits its answer.
#[derive(Drop)]
pub struct Waiting {
    pub message: Message,
    pub deadline: Option<u16>,
    pub awaited: bool,
}

impl Model for Waiting {
    ghost use Rattle.std.specs.Prelude.{List, ℕ};
    ghost use Rattle.unit_defs.specs.Transactions.{Waiting};

    ghost Value = { Waiting (List ℕ) };

    ghost use Rattle.unit_messages.specs.Messages.{message_as};

    ghost view = { λ w. record { message = message_as w.message; deadline = w.deadline; awaited = w.awaited } };
}
