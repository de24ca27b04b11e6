//! The hop from a frozen bearer to its target (TS 38.300, 9.2.3.2.3; TS 38.423, 8.2.1).

ghost use Rattle.std.specs.Prelude.{◌≡◌, ◌∷◌, [], ◌++◌, OnOk, OnErr};
ghost use Rattle.gnb_types.specs.declared.outputs.Output.TheVariants as outs;
ghost use Rattle.gnb_types.specs.declared.outputs.Tag.TheVariants.{Absent};
ghost use Rattle.gnb_types.specs.declared.names.Dir.TheVariants.{Dl};
ghost use Rattle.link_defs.specs.Decoding.{IsSized};
ghost use Rattle.link_defs.specs.Layouts.{forwarded_numbered, forwarded_fresh, end_marker as end_octets};
ghost use Rattle.cu_up_bearer.specs.tunnels.Tunnels.{hop_teid};

use crate::tunnels::at::Scope;
use gnb_types::items::Memory;
use gnb_types::names::{Dir, NodeId};
use gnb_types::octets::Octets;
use gnb_types::outputs::{Output, Outputs, Tag};
use link_packets::{write_end_marker, write_forwarded_fresh, write_forwarded_numbered};
use std::alloc::Global;

/// The CU-UP that is the target, its two forwarding TEIDs, and whether the end of the uplink was put there.
#[derive(Clone, Copy)]
pub struct Hop {
    pub peer: NodeId,
    pub down: u32,
    pub up: u32,
    pub up_ended: bool,
}

/// The COUNT of a packet, and how the run shows it.
#[derive(Clone, Copy)]
pub struct ShownCount {
    pub count: u32,
    pub tag: Tag,
}

impl Hop {
    fn teid(&self, dir: Dir) -> u32
        ensures { result ≡ hop_teid self.now dir }
    {
        match dir {
            Dir::Dl => self.down,
            Dir::Ul => self.up,
        }
    }

    fn put(
        &self,
        at: &Scope,
        dir: Dir,
        tag: Tag,
        bytes: Octets,
        out: &mut Outputs,
    ) -> Result<(), Memory>
        ensures ok { OnOk result (out.new ≡ out.old
            ++ outs.Packet self.now.peer (hop_teid self.now dir) at.now.ue at.now.bearer dir tag bytes ∷ []) }
        ensures err { OnErr result (out.new ≡ out.old) }
    {
        out.push(Output::Packet {
            to: self.peer,
            teid: self.teid(dir),
            ue: at.ue,
            bearer: at.bearer,
            dir,
            count: tag,
            bytes,
        })
    }

    /// A packet that has its COUNT.
    pub fn put_counted(
        &self,
        alloc: Global,
        at: &Scope,
        dir: Dir,
        shown: ShownCount,
        packet: &[u8],
        out: &mut Outputs,
    ) -> Result<(), Memory>
        requires { IsSized packet.now }
        ensures { OnOk result (out.new ≡ out.old
            ++ outs.Packet self.now.peer (hop_teid self.now dir) at.now.ue at.now.bearer dir shown.tag
            (forwarded_numbered at.now.sn (hop_teid self.now dir) shown.count packet.now) ∷ []) }
    {
        let bytes = write_forwarded_numbered(alloc, at.sn, self.teid(dir), shown.count, packet)?;
        self.put(at, dir, shown.tag, bytes, out)
    }

    /// A downlink packet that has no COUNT yet: the target gives it one.
    pub fn put_fresh(
        &self,
        alloc: Global,
        at: &Scope,
        packet: &[u8],
        out: &mut Outputs,
    ) -> Result<(), Memory>
        requires { IsSized packet.now }
        ensures { OnOk result (out.new ≡ out.old
            ++ outs.Packet self.now.peer self.now.down at.now.ue at.now.bearer Dl Absent
            (forwarded_fresh self.now.down packet.now) ∷ []) }
    {
        let bytes = write_forwarded_fresh(alloc, self.down, packet)?;
        self.put(at, Dir::Dl, Tag::Absent, bytes, out)
    }

    /// The End Marker of a direction.
    pub fn put_end(
        &self,
        alloc: Global,
        at: &Scope,
        dir: Dir,
        out: &mut Outputs,
    ) -> Result<(), Memory>
        ensures { OnOk result (out.new ≡ out.old
            ++ outs.Packet self.now.peer (hop_teid self.now dir) at.now.ue at.now.bearer dir Absent
            (end_octets (hop_teid self.now dir)) ∷ []) }
    {
        let bytes = write_end_marker(alloc, self.teid(dir))?;
        self.put(at, dir, Tag::Absent, bytes, out)
    }
}
