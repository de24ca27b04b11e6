//! Frames on the downlink tunnel of a bearer (TS 38.425, 5.4, 5.5.2.1): each with the next NR-U number.

ghost use Rattle.std.specs.Prelude.{◌≡◌, ◌∷◌, [], ◌++◌, ◌≤◌, false, true, None, Some, length, OnOk, OnErr};
ghost use Rattle.gnb_types.specs.declared.outputs.Output.TheVariants as outs;
ghost use Rattle.gnb_types.specs.declared.outputs.Tag.TheVariants.{Absent};
ghost use Rattle.gnb_types.specs.declared.names.Dir.TheVariants.{Dl};
ghost use Rattle.link_defs.specs.Decoding.{IsSized};
ghost use Rattle.unit_defs.specs.CuUpRecords.{CuUpBearer};
ghost use Rattle.unit_defs.specs.CuUpBearers.{sent, framed};
ghost use Rattle.unit_defs.specs.Ways.{report_pdu};
ghost use Rattle.unit_defs.specs.octet_defs.Codec.{Codec, octet_way};
ghost use Rattle.unit_messages.specs.steps.Steps.{IsStep, step_after};
ghost use Rattle.cu_up_bearer.specs.tunnels.Tunnels.{at_as, with_frames, frame_output, IsNumber, IsPut};

use crate::tunnels::at::Scope;
use gnb_types::bits::Bits;
use gnb_types::names::{Dir, NodeId};
use gnb_types::octets::Octets;
use gnb_types::outputs::{Output, Outputs, Tag};
use link_packets::{write_f1u_downlink_packet, write_f1u_downlink_poll, write_f1u_downlink_report};
use std::alloc::Global;
use unit_messages::steps::StepError;

/// The counter of NR-U numbers.
const FRAMES: u8 = 6;

/// The last NR-U number of a tunnel.
const LAST_FRAME: u32 = 16_777_215;

/// Where a bearer's downlink goes: the DU, its TEID, and the NR-U number of the next frame.
#[derive(Clone, Copy)]
pub struct DownlinkTunnel {
    pub du: NodeId,
    pub teid: u32,
    pub next: u32,
}

/// The downlink tunnel of a bearer, once there is one, and whether the next packet's frame says to the DU that nothing before it comes
/// any more.
#[derive(Clone, Copy)]
pub struct Frames {
    pub downlink: Option<DownlinkTunnel>,
    pub restart: bool,
}

impl DownlinkTunnel {
    /// The number of the next frame.
    fn number(self) -> Result<u32, StepError>
        ensures { IsNumber self result }
    {
        if self.next > LAST_FRAME {
            return Err(StepError::Spent { counter: FRAMES });
        }
        Ok(self.next)
    }

    /// A frame is put, and the next one has the next number.
    fn put(
        self,
        at: &Scope,
        tag: Tag,
        bytes: Octets,
        out: &mut Outputs,
    ) -> Result<DownlinkTunnel, StepError>
        requires { self.next ≤ 16777215 }
        ensures { IsPut self (frame_output self at.now tag bytes) out.old out.new result }
    {
        out.push(Output::Packet {
            to: self.du,
            teid: self.teid,
            ue: at.ue,
            bearer: at.bearer,
            dir: Dir::Dl,
            count: tag,
            bytes,
        })?;
        Ok(DownlinkTunnel {
            du: self.du,
            teid: self.teid,
            next: self.next + 1,
        })
    }
}

impl Frames {
    /// A packet with its COUNT; the first one after a loss says so. Without a tunnel nothing goes out.
    pub fn send(
        &mut self,
        alloc: Global,
        at: &Scope,
        count: u32,
        packet: &[u8],
        tag: Tag,
        out: &mut Outputs,
    ) -> Result<(), StepError>
        requires { IsSized packet.now }
        ensures { (codec : Codec) (b : CuUpBearer) → IsStep (step_after out.old
            (sent (octet_way codec) (at_as at.now) count packet.now tag (with_frames b self.old)))
            out.new (with_frames b self.new) result }
    {
        let Some(downlink) = self.downlink else {
            return Ok(());
        };
        let number = downlink.number()?;
        let bytes = write_f1u_downlink_packet(
            alloc,
            at.sn,
            downlink.teid,
            self.restart,
            number,
            count,
            packet,
        )?;
        self.downlink = Some(downlink.put(at, tag, bytes, out)?);
        self.restart = false;
        Ok(())
    }

    /// A status report.
    pub fn send_report(
        &mut self,
        alloc: Global,
        at: &Scope,
        fmc: u32,
        bits: &Bits,
        out: &mut Outputs,
    ) -> Result<(), StepError>
        requires { length bits.now ≤ 4096 }
        ensures { (codec : Codec) (b : CuUpBearer) → IsStep (step_after out.old
            (framed (octet_way codec) (at_as at.now) false false
            (Some ((octet_way codec).write at.now.sn (report_pdu fmc bits.now))) Absent
            (with_frames b self.old))) out.new (with_frames b self.new) result }
    {
        let Some(downlink) = self.downlink else {
            return Ok(());
        };
        let number = downlink.number()?;
        let bytes = write_f1u_downlink_report(alloc, downlink.teid, number, fmc, bits)?;
        self.downlink = Some(downlink.put(at, Tag::Absent, bytes, out)?);
        Ok(())
    }

    /// A frame that asks for a delivery status.
    pub fn poll(&mut self, alloc: Global, at: &Scope, out: &mut Outputs) -> Result<(), StepError>
        ensures { (codec : Codec) (b : CuUpBearer) → IsStep (step_after out.old
            (framed (octet_way codec) (at_as at.now) true false None Absent (with_frames b self.old)))
            out.new (with_frames b self.new) result }
    {
        let Some(downlink) = self.downlink else {
            return Ok(());
        };
        let number = downlink.number()?;
        let bytes = write_f1u_downlink_poll(alloc, downlink.teid, number)?;
        self.downlink = Some(downlink.put(at, Tag::Absent, bytes, out)?);
        Ok(())
    }
}
