//! How many packets of a bearer and direction there were.

ghost use Rattle.std.specs.Prelude.{◌≡◌, ◌+◌, max, IfOk};
ghost use Rattle.run_defs.specs.States.{Book, new_book};

use gnb_types::items::Memory;
use std::marker::Model;

/// How many packets of a bearer and direction were offered, numbered and delivered.
#[derive(Clone, Copy)]
pub struct Book {
    pub offered: u64,
    pub numbered: u64,
    pub delivered: u64,
}

impl Model for Book {
    ghost use Rattle.run_defs.specs.States.{Book};

    ghost Value = { Book };

    ghost view = { λ b. record { offered = b.offered; numbered = b.numbered; delivered = b.delivered } };

    ghost inverse = { λ b. record { offered = b.offered; numbered = b.numbered; delivered = b.delivered } };
}

impl Book {
    /// None.
    pub fn new() -> Book
        ensures { result ≡ new_book }
    {
        Book {
            offered: 0,
            numbered: 0,
            delivered: 0,
        }
    }

    /// One more was offered.
    pub fn offer(self) -> Result<Book, Memory>
        ensures { IfOk result (λ book. book ≡ record self { offered = self.offered + 1 }) }
    {
        // So many offers don't fit the memory.
        let offered = self.offered.checked_add(1).ok_or(Memory::too_many())?;
        Ok(Book { offered, ..self })
    }

    /// One more was delivered.
    pub fn deliver(self) -> Result<Book, Memory>
        ensures { IfOk result (λ book. book ≡ record self { delivered = self.delivered + 1 }) }
    {
        // So many deliveries don't fit the memory.
        let delivered = self.delivered.checked_add(1).ok_or(Memory::too_many())?;
        Ok(Book { delivered, ..self })
    }

    /// This COUNT was given to a packet.
    pub fn number(self, count: u32) -> Book
        ensures { result ≡ record self { numbered = max self.numbered (count + 1) } }
    {
        Book {
            numbered: self.numbered.max(u64::from(count) + 1),
            ..self
        }
    }
}
