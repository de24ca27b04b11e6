//! The downlink of a bearer: packets wait, get a COUNT, are sent in frames, and are held until they are confirmed (TS 38.323, 5.2.1).

ghost use Rattle.std.specs.Prelude.{◌≡◌, OnOk};
ghost use Rattle.unit_defs.specs.CuUpRecords.{CuUpBearer};
ghost use Rattle.unit_defs.specs.CuUpBearers.{number_each, number_waiting, sent_again};
ghost use Rattle.unit_defs.specs.octet_defs.Codec.{Codec, octet_way};
ghost use Rattle.unit_messages.specs.steps.Steps.{IsStep, step_after};
ghost use Rattle.cu_up_bearer.specs.tunnels.Tunnels.{at_as};
ghost use Rattle.cu_up_bearer.specs.downlink.Downlinks.{with_down, taken_of, IsDown};

use crate::tunnels::{Frames, Scope};
use gnb_types::outputs::{Outputs, Tag};
use pdcp_bearers::ue_bearers::{Counted, Sender as Sending};
use std::alloc::Global;
use unit_messages::steps::StepError;

/// The transmitting entity of a bearer, with the packets that wait, and its frames. Contracts of calls hold whatever else the bearer
/// keeps.
#[derive(Drop)]
pub struct DownSide {
    pub sending: Sending,
    pub frames: Frames,
}

impl DownSide {
    /// Packets that wait get COUNTs while the window has room, and are sent.
    fn number_each(&mut self, alloc: Global, at: &Scope, out: &mut Outputs) -> Result<(), StepError>
        requires { IsDown at.now self.old }
        ensures step { (codec : Codec) (b : CuUpBearer) → IsStep (step_after out.old
            (number_each (octet_way codec) (at_as at.now) self.old.sending.waiting (with_down b self.old)))
            out.new (with_down b self.new) result }
        ensures of { OnOk result (IsDown at.now self.new) }
    {
        while let Some(Counted { count, packet }) = self.sending.give_count()? {
            self.frames
                .send(alloc, at, count, packet.as_slice(), Tag::Own(count), out)?;
        }
        Ok(())
    }

    /// The same where the bearer serves its downlink: it has a tunnel, and is neither frozen nor released.
    pub fn number_waiting(
        &mut self,
        alloc: Global,
        at: &Scope,
        out: &mut Outputs,
    ) -> Result<(), StepError>
        requires { IsDown at.now self.old }
        ensures step { (codec : Codec) (b : CuUpBearer) → IsStep (step_after out.old
            (number_waiting (octet_way codec) (at_as at.now) (with_down b self.old)))
            out.new (with_down b self.new) result }
        ensures of { OnOk result (IsDown at.now self.new) }
    {
        if at.flags.frozen || at.flags.released {
            return Ok(());
        }
        let Some(_) = self.frames.downlink else {
            return Ok(());
        };
        self.number_each(alloc, at, out)
    }

    /// All that nothing confirmed is sent again.
    pub fn send_unconfirmed(
        &mut self,
        alloc: Global,
        at: &Scope,
        out: &mut Outputs,
    ) -> Result<(), StepError>
        ensures step { (codec : Codec) (b : CuUpBearer) → IsStep (step_after out.old
            (sent_again (octet_way codec) (at_as at.now) self.old.sending.sender.unconfirmed (with_down b self.old)))
            out.new (with_down b self.new) result }
        ensures sending { self.new.sending ≡ self.old.sending }
    {
        let mut from = 0;
        while let Some((count, packet)) = self.sending.unconfirmed(from) {
            self.frames
                .send(alloc, at, count, packet, Tag::Own(count), out)?;
            from = count + 1;
        }
        Ok(())
    }

    /// Of what nothing confirmed, the packets of these COUNTs are sent again.
    pub fn send_these(
        &mut self,
        alloc: Global,
        at: &Scope,
        counts: &[u32],
        out: &mut Outputs,
    ) -> Result<(), StepError>
        ensures step { (codec : Codec) (b : CuUpBearer) → IsStep (step_after out.old
            (sent_again (octet_way codec) (at_as at.now) (taken_of counts.now self.old.sending.sender.unconfirmed) (with_down b self.old)))
            out.new (with_down b self.new) result }
        ensures sending { self.new.sending ≡ self.old.sending }
    {
        let mut from = 0;
        while let Some((count, packet)) = self.sending.unconfirmed(from) {
            if counts.contains(&count) {
                self.frames
                    .send(alloc, at, count, packet, Tag::Own(count), out)?;
            }
            from = count + 1;
        }
        Ok(())
    }
}
