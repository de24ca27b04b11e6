//! The end of a hop at its target, which takes what the source forwards before its own packets.

ghost use Rattle.std.specs.Prelude.{◌≡◌, OnOk, OnErr, Some, true};
ghost use Rattle.pdcp.specs.Numbers.{space};
ghost use Rattle.pdcp_defs.specs.Counts.{count_below};
ghost use Rattle.unit_defs.specs.CuUpItems.{held_as_target, first_held};
ghost use Rattle.unit_defs.specs.CuUpBearers.{hop_is_done};
ghost use Rattle.forwarding.specs.Targets.{target, has_ended, ended, end_of, flags_of, bearer_of, kind_of, passes, count_after};

use crate::error::HopError;
use gnb_types::names::{Dir, SnBits};
use gnb_types::reasons::HeldReason;
use std::marker::Model;

/// The tunnels that end at a CU-UP.
#[derive(Clone, Copy, PartialEq, Eq)]
pub enum TunnelKind {
    N3,
    F1Up,
    ForwardDown,
    ForwardUp,
}

/// What a target knows of the hop from its source: the next COUNT that the source would have given, once the SN status was taken; whether
/// the terminal arrived; and which directions have ended.
#[derive(Drop)]
pub struct TargetHop {
    sn: SnBits,
    dl_next: Option<u32>,
    arrived: bool,
    down_ended: bool,
    up_ended: bool,
}

impl Model for TargetHop {
    ghost use Rattle.forwarding.specs.Targets.{TargetEnd, target_end};

    ghost Value = { TargetEnd };

    ghost view = { λ t. target_end t.sn t.dl_next t.arrived t.down_ended t.up_ended };
}

impl TargetHop {
    /// A hop of which nothing is known yet.
    pub fn new(sn: SnBits) -> TargetHop
        ensures { result ≡ target sn }
    {
        TargetHop {
            sn,
            dl_next: None,
            arrived: false,
            down_ended: false,
            up_ended: false,
        }
    }

    /// The SN status was taken: the source would have given this COUNT next.
    pub fn status(&mut self, dl_next: u32)
        ensures { self.new ≡ record self.old { dl_next = Some dl_next } }
    {
        self.dl_next = Some(dl_next);
    }

    /// The terminal arrived.
    pub fn arrived(&mut self)
        ensures { self.new ≡ record self.old { arrived = true } }
    {
        self.arrived = true;
    }

    /// Whether the next item of a tunnel of this kind may be taken, as far as the hop goes; else the first reason why it is held.
    pub fn next(&self, kind: TunnelKind) -> Result<(), HeldReason>
        ensures { result ≡ passes (first_held
            (held_as_target (flags_of self.now) (kind_of kind) (bearer_of self.now))) }
    {
        if self.dl_next.is_none() {
            return Err(HeldReason::NoStatus);
        }
        if !self.arrived {
            return Err(HeldReason::NotArrived);
        }
        if kind == TunnelKind::N3 && !self.down_ended {
            return Err(HeldReason::Early);
        }
        Ok(())
    }

    /// The COUNT with this number (read modulo the sequence space) among the last space of COUNTs that the source gave.
    pub fn count_of(&self, number: u32) -> Result<u32, HopError>
        ensures { result ≡ count_after self.now.sn self.now.dl_next number }
    {
        let Some(next) = self.dl_next else {
            return Err(HopError::NoStatus);
        };
        match count_below(self.sn, next, number) {
            Some(count) => Ok(count),
            None => Err(HopError::BelowZero),
        }
    }

    /// The End Marker of a direction was taken, which comes once.
    pub fn end(&mut self, dir: Dir) -> Result<(), HopError>
        ensures answers { result ≡ end_of self.old dir }
        ensures ok { OnOk result (self.new ≡ ended self.old dir) }
        ensures err { OnErr result (self.new ≡ self.old) }
    {
        if self.has_ended(dir) {
            return Err(HopError::EndSeen);
        }
        match dir {
            Dir::Dl => self.down_ended = true,
            Dir::Ul => self.up_ended = true,
        }
        Ok(())
    }

    fn has_ended(&self, dir: Dir) -> bool
        ensures { result ≡ has_ended self.now dir }
    {
        match dir {
            Dir::Dl => self.down_ended,
            Dir::Ul => self.up_ended,
        }
    }

    /// Whether nothing comes from the source any more.
    pub fn done(&self) -> bool
        ensures { result ≡ hop_is_done (flags_of self.now) (bearer_of self.now) }
    {
        self.down_ended && self.up_ended
    }
}

/// How many sequence numbers there are.
fn sequence_space(sn: SnBits) -> u32
    ensures { result ≡ space sn }
{
    match sn {
        SnBits::Len12 => 1 << 12,
        SnBits::Len18 => 1 << 18,
    }
}

/// The COUNT with this number among the last space of COUNTs below `next`. None where it would be below 0.
#[tactic(auto, unfolding(pdcp_defs::specs::Counts::count_below))]
fn count_below(sn: SnBits, next: u32, number: u32) -> Option<u32>
    ensures { result ≡ count_below sn next number }
{
    let space = sequence_space(sn);
    let number = number % space;
    let low = next % space;
    let high = next - low;
    if number < low {
        Some(high + number)
    } else {
        Some(high.checked_sub(space)? + number)
    }
}
