//! The epochs in which radios are connected.

ghost use Rattle.std.specs.Prelude.{◌≡◌, [], IfOk};
ghost use Rattle.gnb_types.specs.Orders.{ue_cmp};
ghost use Rattle.tables.specs.Tables.{find};
ghost use Rattle.transport_defs.specs.Links.{connect};

use gnb_types::items::Memory;
use gnb_types::names::UeId;
use std::alloc::Global;
use std::marker::Model;

/// How many terminals can be named.
const TERMINALS: usize = 256;

/// For each terminal the epoch in which its radios are connected, if they are. There is room for each terminal, so that to connect
/// one takes no memory. Contracts see the table of those that are connected.
#[derive(Drop)]
pub struct Epochs {
    epochs: Vec<Option<u32>>,
}

impl Model for Epochs {
    ghost use Rattle.std.specs.Prelude.{◌≡◌, List, ℕ, length};
    ghost use Rattle.gnb_types.specs.declared.names.UeId.{UeId};
    ghost use Rattle.links.specs.inside.Epochs.{entries};

    ghost Value = { List (UeId × ℕ) };

    ghost view = { λ e. entries 0 e.epochs.items };

    ghost invariant = { λ e. length e.epochs.items ≡ 256 };
}

impl Epochs {
    /// No terminal is connected.
    pub fn new(alloc: Global) -> Result<Epochs, Memory>
        ensures { IfOk result (λ epochs. epochs ≡ []) }
    {
        let epochs = Vec::from_array(alloc, [None; TERMINALS])?;
        Ok(Epochs { epochs })
    }

    /// The epoch in which the radios of a terminal are connected.
    pub fn of(&self, ue: UeId) -> Option<u32>
        ensures { result ≡ find ue_cmp self.now ue }
    {
        self.epochs[usize::from(ue.0)]
    }

    /// Connects the radios of a terminal in an epoch, or in none.
    pub fn connect(&mut self, ue: UeId, epoch: Option<u32>)
        ensures { self.new ≡ connect self.old ue epoch }
    {
        self.epochs[usize::from(ue.0)] = epoch;
    }
}
