//! The end of a hop at its source, which is frozen: all that it holds and takes goes to the target.

ghost use Rattle.std.specs.Prelude.{◌≡◌, IfOk, OnOk, OnErr};
ghost use Rattle.link_defs.specs.Decoding.{IsSized};
ghost use Rattle.link_defs.specs.Layouts.{forwarded_numbered, forwarded_fresh, forwarded_late};
ghost use Rattle.forwarding.specs.Sources.{source, teid_of, has_ended, ended, end_of};
ghost use Rattle.forwarding.specs.Answers.{Answers};

use crate::error::HopError;
use gnb_types::names::{Dir, NodeId, SnBits};
use gnb_types::octets::{Memory, Octets};
use link_packets::{write_end_marker, write_forwarded_fresh, write_forwarded_numbered};
use std::alloc::Global;
use std::marker::Model;

/// Where the packets of a frozen bearer go. Contracts see the hop of the procedure tables, with the length of its numbers.
#[derive(Drop)]
pub struct SourceHop {
    sn: SnBits,
    peer: NodeId,
    down: u32,
    up: u32,
    down_ended: bool,
    up_ended: bool,
}

impl Model for SourceHop {
    ghost use Rattle.forwarding.specs.Sources.{SourceEnd, source_end};

    ghost Value = { SourceEnd };

    ghost view = { λ s. source_end s.sn s.down_ended (record { peer = s.peer; down = s.down; up = s.up; up_ended = s.up_ended }) };
}

impl SourceHop {
    /// A hop to the forwarding tunnels with these TEIDs at `peer`, for downlink and for uplink. Neither has ended.
    pub fn new(peer: NodeId, dl: u32, ul: u32, sn: SnBits) -> SourceHop
        ensures { result ≡ source peer dl ul sn }
    {
        SourceHop {
            sn,
            peer,
            down: dl,
            up: ul,
            down_ended: false,
            up_ended: false,
        }
    }

    /// The node and the TEID to which packets of this direction go.
    pub fn place(&self, dir: Dir) -> (NodeId, u32)
        ensures peer { result.0 ≡ self.now.hop.peer }
        ensures teid { result.1 ≡ teid_of self.now dir }
    {
        (self.peer, self.teid(dir))
    }

    fn teid(&self, dir: Dir) -> u32
        ensures { result ≡ teid_of self.now dir }
    {
        match dir {
            Dir::Dl => self.down,
            Dir::Ul => self.up,
        }
    }

    /// A downlink packet that has its COUNT.
    pub fn numbered(&self, alloc: Global, count: u32, packet: &[u8]) -> Result<Octets, Memory>
        requires { IsSized packet.now }
        ensures { IfOk result (λ octets. octets
            ≡ forwarded_numbered self.now.sn self.now.hop.down count packet.now) }
    {
        write_forwarded_numbered(alloc, self.sn, self.down, count, packet)
    }

    /// A downlink packet that has no COUNT yet: the target gives it one.
    pub fn fresh(&self, alloc: Global, packet: &[u8]) -> Result<Octets, Memory>
        requires { IsSized packet.now }
        ensures { IfOk result (λ octets. octets ≡ forwarded_fresh self.now.hop.down packet.now) }
    {
        write_forwarded_fresh(alloc, self.down, packet)
    }

    /// An uplink packet that the source can't deliver any more.
    pub fn late(&self, alloc: Global, count: u32, packet: &[u8]) -> Result<Octets, Memory>
        requires { IsSized packet.now }
        ensures { IfOk result (λ octets. octets
            ≡ forwarded_late self.now.sn self.now.hop.up count packet.now) }
    {
        write_forwarded_numbered(alloc, self.sn, self.up, count, packet)
    }

    /// The End Marker of a direction, which is put once.
    pub fn end(&mut self, alloc: Global, dir: Dir) -> Result<Octets, HopError>
        ensures answers { Answers (end_of self.old dir) result }
        ensures ok { OnOk result (self.new ≡ ended self.old dir) }
        ensures err { OnErr result (self.new ≡ self.old) }
    {
        if self.has_ended(dir) {
            return Err(HopError::EndSeen);
        }
        let octets = write_end_marker(alloc, self.teid(dir))?;
        match dir {
            Dir::Dl => self.down_ended = true,
            Dir::Ul => self.up_ended = true,
        }
        Ok(octets)
    }

    fn has_ended(&self, dir: Dir) -> bool
        ensures { result ≡ has_ended self.now dir }
    {
        match dir {
            Dir::Dl => self.down_ended,
            Dir::Ul => self.up_ended,
        }
    }
}
