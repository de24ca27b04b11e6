//! A CU-UP that is the target of one hop and the source of the next: it passes on what still comes.

ghost use Rattle.std.specs.Prelude.{◌≡◌, IsSome, OnOk, OnErr};
ghost use Rattle.link_defs.specs.Decoding.{IsSized};
ghost use Rattle.forwarding.specs.Targets.{ended, end_of};
ghost use Rattle.forwarding.specs.Relays.{relay, passed};
ghost use Rattle.forwarding.specs.Answers.{Answers};

use crate::error::HopError;
use crate::source::SourceHop;
use crate::target::TargetHop;
use gnb_types::names::Dir;
use gnb_types::octets::Octets;
use std::alloc::Global;
use std::marker::Model;

/// A hop from below that isn't done, and the hop above to which its packets go on. Contracts see both.
#[derive(Drop)]
pub struct Relay {
    below: TargetHop,
    above: SourceHop,
}

impl Model for Relay {
    ghost use Rattle.std.specs.Prelude.{IsSome};
    ghost use Rattle.forwarding.specs.Relays.{Relayed, relay};

    ghost Value = { Relayed };

    ghost view = { λ r. relay r.below r.above };

    ghost invariant = { λ r. IsSome r.below.dl_next };
}

impl Relay {
    /// Joins the two. The COUNTs of what comes from below must be known.
    pub fn new(below: TargetHop, above: SourceHop) -> Relay
        requires { IsSome below.dl_next }
        ensures { result ≡ relay below above }
    {
        Relay { below, above }
    }

    /// A packet from below on its way on: with its number as the COUNT that it stands for, without one as a fresh one.
    pub fn pass(
        &self,
        alloc: Global,
        number: Option<u32>,
        packet: &[u8],
    ) -> Result<Octets, HopError>
        requires { IsSized packet.now }
        ensures { Answers (passed self.now number packet.now) result }
    {
        let Some(number) = number else {
            return Ok(self.above.fresh(alloc, packet)?);
        };
        let count = self.below.count_of(number)?;
        Ok(self.above.numbered(alloc, count, packet)?)
    }

    /// The End Marker of a direction came from below, which comes once.
    pub fn end_below(&mut self, dir: Dir) -> Result<(), HopError>
        ensures answers { result ≡ end_of self.old.below dir }
        ensures ok { OnOk result (self.new ≡ record self.old { below = ended self.old.below dir }) }
        ensures err { OnErr result (self.new ≡ self.old) }
    {
        self.below.end(dir)
    }

    /// The two hops as they stand.
    pub fn split(self) -> (TargetHop, SourceHop)
        ensures below { result.0 ≡ self.below }
        ensures above { result.1 ≡ self.above }
    {
        (self.below, self.above)
    }
}
