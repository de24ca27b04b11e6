//! What is left of a radio's turn.

ghost use Rattle.std.specs.Prelude.{◌≡◌};
ghost use Rattle.std.specs.Option.{option_map};
ghost use Rattle.run_defs.specs.Settling.{to_acks, to_airs, after_air, after_ack};
ghost use Rattle.world.specs.radios.RadioTurns.{turn_of, over, aired};

use crate::turns::held::is_made;
use gnb_types::keys::EntityKey;
use world_steps::asked::Moved;

/// How often a radio may be aired and acknowledged, which of the two it is at, and whether anything moved since it last began to be aired.
#[derive(Clone, Copy)]
pub struct Turn {
    pub key: EntityKey,
    pub airs: u64,
    pub acks: u64,
    pub airing: bool,
    pub moved: bool,
}

impl Turn {
    /// It is acknowledged next.
    pub fn to_acks(self) -> Turn
        ensures { turn_of result ≡ to_acks (turn_of self) }
    {
        Turn {
            airing: false,
            ..self
        }
    }

    /// It is aired next, and nothing moved yet.
    pub fn to_airs(self) -> Turn
        ensures { turn_of result ≡ to_airs (turn_of self) }
    {
        Turn {
            airing: true,
            moved: false,
            ..self
        }
    }

    /// It was aired once.
    pub fn after_air(self) -> Turn
        ensures { turn_of result ≡ after_air (turn_of self) }
    {
        Turn {
            airs: self.airs.saturating_sub(1),
            moved: true,
            ..self
        }
    }

    /// It was aired once, or couldn't be, and then it is acknowledged next.
    pub fn aired(self, moved: Moved) -> Turn
        ensures { turn_of result ≡ aired (turn_of self) moved }
    {
        if is_made(moved) {
            self.after_air()
        } else {
            self.after_air().to_acks()
        }
    }

    /// It was acknowledged once.
    pub fn after_ack(self) -> Turn
        ensures { turn_of result ≡ after_ack (turn_of self) }
    {
        Turn {
            acks: self.acks.saturating_sub(1),
            moved: true,
            ..self
        }
    }

    /// What is left where nothing can be acknowledged: where something moved it is aired again.
    pub fn over(self) -> Option<Turn>
        ensures { option_map turn_of result ≡ over (turn_of self) }
    {
        if self.moved {
            Some(self.to_airs())
        } else {
            None
        }
    }
}
