//! What a DU does with packets: with what comes down a tunnel, with what comes up the radio, and with what the radio confirmed.

ghost use Rattle.std.specs.Prelude.{◌≡◌, ◌+◌, ◌<◌, ◌≤◌, ◌^◌, ◌++◌, ◌∷◌, [], length, None, Some, ℕ, List, OnOk, OnErr, IfOk, IfErr, IfSome, option_copied};
ghost use Rattle.gnb_types.specs.declared.inputs.Input.TheVariants as ins;
ghost use Rattle.gnb_types.specs.declared.names.Dir.TheVariants.{Dl, Ul};
ghost use Rattle.gnb_types.specs.declared.outputs.Output.TheVariants as outs;
ghost use Rattle.nr_user_plane.specs.declared.frames.Frame.TheVariants.{Status};
ghost use Rattle.nr_user_plane.specs.Frames.{FitsFrame};
ghost use Rattle.link_defs.specs.Layouts.{desired_buffer_size, delivery_status};
ghost use Rattle.gnb_types.specs.Orders.{ue_cmp};
ghost use Rattle.tables.specs.Tables.{find};
ghost use Rattle.unit_defs.specs.Ways.{drops};
ghost use Rattle.unit_defs.specs.Du.{DuContext, told, gap_after, carried, taken_of, pass_up, confirm};
ghost use Rattle.unit_defs.specs.octet_defs.Codec.{Codec, octet_way};
ghost use Rattle.unit_defs.specs.octet_defs.Reading.{du_link};
ghost use Rattle.unit_defs.specs.octet_defs.Units.{du_steps};
ghost use Rattle.unit_defs.specs.octet_defs.Writing.{outputs_of};
ghost use Rattle.unit_defs.specs.codec_defs.Reading.{ReadsItems, ReadsPdus};
ghost use Rattle.unit_messages.specs.steps.Steps.{IsStep, step_after};
ghost use Rattle.unit_messages.specs.declared.steps.StepError.TheVariants as step_errors;
ghost use Rattle.du_contexts.specs.Frames.{frame_as};
ghost use Rattle.du_contexts.specs.Tables.{OctetDu, with_tables, IsTunnel, is_item};

use crate::bearers::DuBearer;
use crate::contexts::DuContexts;
use gnb_types::items::Memory;
use gnb_types::names::{BearerId, Dir, SnBits, UeId};
use gnb_types::octets::Octets;
use gnb_types::outputs::{Output, Outputs, Tag};
use gnb_types::reasons::DropReason;
use link_packets::{F1uDownlink, read_f1u_downlink, write_delivery_status, write_f1u_uplink_pdu};
use nr_user_plane::ranges::Ranges;
use std::alloc::Global;
use unit_messages::steps::StepError;

/// An NR-U data frame: whether it polls and restarts, its number, and the PDU in it, if there is one (TS 38.425, 5.5.2.1).
#[derive(Clone, Copy)]
pub struct Frame<'a> {
    pub poll: bool,
    pub restart: bool,
    pub number: u32,
    pub pdu: Option<&'a [u8]>,
}

/// A bearer of a terminal.
#[derive(Clone, Copy)]
pub struct RadioKey {
    pub ue: UeId,
    pub bearer: BearerId,
}

/// The input is ignored for this reason.
pub(crate) fn drop_input(outputs: &mut Outputs, reason: DropReason) -> Result<(), StepError>
    ensures ok { OnOk result (outputs.new ≡ outputs.old ++ outs.Drop reason ∷ []) }
    ensures err { IfErr result (λ e. e ≡ step_errors.Memory) }
{
    outputs.push(Output::Drop(reason))?;
    Ok(())
}

/// The PDU of a frame goes to the radio of this epoch, if there is one and no gap.
fn carry(
    alloc: Global,
    key: RadioKey,
    epoch: u32,
    gap: bool,
    pdu: Option<&[u8]>,
    outputs: &mut Outputs,
) -> Result<(), StepError>
    ensures { (codec : Codec) (c : DuContext) (r : OctetDu) → c.epoch ≡ epoch → IsStep
        (step_after outputs.old (carried (octet_way codec) key.ue key.bearer c gap (option_copied pdu.entry) r))
        outputs.new r result }
{
    let Some(pdu) = pdu else {
        return Ok(());
    };
    if gap {
        return drop_input(outputs, DropReason::Gap);
    }
    let bytes = Octets::from_slice(alloc, pdu)?;
    outputs.push(Output::Radio {
        ue: key.ue,
        bearer: key.bearer,
        dir: Dir::Dl,
        epoch,
        count: Tag::Same,
        bytes,
    })?;
    Ok(())
}

impl DuBearer {
    /// A delivery status goes to the CU-UP, with what was lost or delivered (TS 38.425, 5.5.2.2).
    fn put_status(
        &self,
        alloc: Global,
        key: RadioKey,
        tag: Tag,
        lost: Ranges,
        delivered: Option<u32>,
        outputs: &mut Outputs,
    ) -> Result<(), Memory>
        requires { FitsFrame (Status desired_buffer_size lost delivered) }
        ensures ok { OnOk result (outputs.new ≡ outputs.old
            ++ outs.Packet self.now.up self.now.uplink key.ue key.bearer Dl tag (delivery_status self.now.uplink lost delivered) ∷ []) }
        ensures err { OnErr result (outputs.new ≡ outputs.old) }
    {
        let bytes = write_delivery_status(alloc, self.uplink, lost, delivered)?;
        outputs.push(Output::Packet {
            to: self.up,
            teid: self.uplink,
            ue: key.ue,
            bearer: key.bearer,
            dir: Dir::Dl,
            count: tag,
            bytes,
        })
    }

    /// What is missing before a frame of this number is told to the CU-UP, and a poll is answered.
    fn report(
        &self,
        alloc: Global,
        key: RadioKey,
        frame: &Frame,
        outputs: &mut Outputs,
    ) -> Result<(), Memory>
        requires { frame.now.number < 2 ^ 24 }
        ensures ok { (codec : Codec) → OnOk result (outputs.new
            ≡ outputs.old ++ outputs_of (told (octet_way codec) key.ue key.bearer self.now frame.now.poll frame.now.number)) }
        ensures err { OnErr result (outputs.new ≡ outputs.old) }
    {
        if self.awaited < frame.number {
            let mut lost = Ranges::new();
            lost.push(self.awaited, frame.number - 1);
            return self.put_status(alloc, key, Tag::Absent, lost, None, outputs);
        }
        if frame.poll {
            return self.put_status(alloc, key, Tag::Absent, Ranges::new(), None, outputs);
        }
        Ok(())
    }

    /// A frame of this number was taken: the next one is awaited.
    fn took(&mut self, number: u32, gap: bool)
        requires { number < 2 ^ 24 }
        ensures { self.new ≡ record self.old { awaited = number + 1; gap = gap } }
    {
        self.awaited = number + 1;
        self.gap = gap;
    }

    /// Whether payloads are dropped after this frame: a gap lasts until a payload with the restart mark.
    fn gap_after(&self, frame: &Frame) -> bool
        ensures { (codec : Codec) → result
            ≡ gap_after (octet_way codec) self.now frame.now.number frame.now.restart (option_copied frame.now.pdu) }
    {
        let gap = self.gap || self.awaited < frame.number;
        match frame.pdu {
            Some(_) => gap && !frame.restart,
            None => gap,
        }
    }
}

impl DuContexts {
    /// An item of a downlink tunnel: what is missing before it is told, a poll is answered, and its PDU goes to the radio.
    pub fn take(
        &mut self,
        alloc: Global,
        teid: u32,
        octets: &[u8],
        outputs: &mut Outputs,
    ) -> Result<(), StepError>
        ensures { (codec : Codec) (r : OctetDu) → ReadsItems codec → IsStep
            (step_after outputs.old (du_steps codec (with_tables r self.old) (ins.Packet teid octets.now)))
            outputs.new (with_tables r self.new) result }
    {
        match self.read_frame(teid, octets) {
            Ok((key, frame)) => self.frame_received(alloc, key, &frame, outputs),
            Err(reason) => drop_input(outputs, reason),
        }
    }

    /// Whose a tunnel is, and the length of the numbers in its items.
    #[tactic(auto, unfolding(unit_defs::specs::octet_defs::Units::du_steps, unit_defs::specs::octet_defs::Reading::read_at_du))]
    fn tunnel(&self, teid: u32) -> Result<(RadioKey, SnBits), DropReason>
        ensures ok { IfOk result (λ x. IsTunnel self.now teid x.0 x.1) }
        ensures none { (r : OctetDu) → IfErr result (λ reason. du_link (with_tables r self.now) teid ≡ None) }
        ensures err { (codec : Codec) (r : OctetDu) (octets : List ℕ) → IfErr result (λ reason.
            du_steps codec (with_tables r self.now) (ins.Packet teid octets) ≡ drops reason (with_tables r self.now)) }
    {
        let Some(tunnel) = self.tunnels.get(&teid) else {
            return Err(DropReason::NoTunnel);
        };
        let key = RadioKey {
            ue: tunnel.ue,
            bearer: tunnel.bearer,
        };
        match self.contexts.get(&key.ue) {
            Some(context) => Ok((key, context.sn)),
            None => Err(DropReason::NoContext),
        }
    }

    /// Whether octets decode as an item of this tunnel.
    pub fn decodes(&self, teid: u32, octets: &[u8]) -> bool
        ensures { (codec : Codec) (r : OctetDu) → ReadsItems codec → result ≡ is_item codec octets.now (du_link (with_tables r self.now) teid) }
    {
        let (_, sn) = match self.tunnel(teid) {
            Ok(found) => found,
            Err(_) => return false,
        };
        match read_f1u_downlink(sn, octets) {
            Some(_) => true,
            None => false,
        }
    }

    /// What an item of a downlink tunnel is, and whose; or why it is dropped.
    fn read_frame<'a>(
        &self,
        teid: u32,
        octets: &'a [u8],
    ) -> Result<(RadioKey, Frame<'a>), DropReason>
        ensures ok { (codec : Codec) (r : OctetDu) → ReadsItems codec → IfOk result (λ x.
            du_steps codec (with_tables r self.now) (ins.Packet teid octets.now)
            ≡ taken_of (octet_way codec) x.0.ue x.0.bearer (frame_as x.1) (with_tables r self.now) (find ue_cmp self.now.contexts x.0.ue)) }
        ensures number { IfOk result (λ x. x.1.number < 2 ^ 24) }
        ensures err { (codec : Codec) (r : OctetDu) → ReadsItems codec → IfErr result (λ reason.
            du_steps codec (with_tables r self.now) (ins.Packet teid octets.now) ≡ drops reason (with_tables r self.now)) }
    {
        let (key, sn) = match self.tunnel(teid) {
            Ok(found) => found,
            Err(reason) => return Err(reason),
        };
        match read_f1u_downlink(sn, octets) {
            Some(
                F1uDownlink::Pdu {
                    restart,
                    number,
                    octets: pdu,
                    ..
                },
            ) => Ok((
                key,
                Frame {
                    poll: false,
                    restart,
                    number,
                    pdu: Some(pdu),
                },
            )),
            Some(F1uDownlink::Poll { restart, number }) => Ok((
                key,
                Frame {
                    poll: true,
                    restart,
                    number,
                    pdu: None,
                },
            )),
            None => Err(DropReason::Undecodable),
        }
    }

    /// A frame of a bearer's downlink tunnel.
    pub fn frame_received(
        &mut self,
        alloc: Global,
        key: RadioKey,
        frame: &Frame,
        outputs: &mut Outputs,
    ) -> Result<(), StepError>
        requires { frame.now.number < 2 ^ 24 }
        ensures { (codec : Codec) (r : OctetDu) → IsStep
            (step_after outputs.old
            (taken_of (octet_way codec) key.ue key.bearer (frame_as frame.now) (with_tables r self.old) (find ue_cmp self.old.contexts key.ue)))
            outputs.new (with_tables r self.new) result }
    {
        let Some(context) = self.contexts.get_mut(&key.ue) else {
            return drop_input(outputs, DropReason::NoContext);
        };
        let epoch = context.epoch;
        let Some(found) = context.bearers.get_mut(&key.bearer) else {
            return drop_input(outputs, DropReason::NoContext);
        };
        found.report(alloc, key, frame, outputs)?;
        let gap = found.gap_after(frame);
        found.took(frame.number, gap);
        carry(alloc, key, epoch, gap, frame.pdu, outputs)
    }

    /// A PDU from the radio goes on as it came, on the bearer's uplink tunnel.
    #[tactic(auto, unfolding(unit_defs::specs::Du::pass_up))]
    pub fn pass_up(
        &self,
        alloc: Global,
        key: RadioKey,
        pdu: &[u8],
        outputs: &mut Outputs,
    ) -> Result<(), StepError>
        requires { length pdu.now ≤ 4096 }
        ensures { (codec : Codec) (r : OctetDu) → IsStep
            (step_after outputs.old (pass_up (octet_way codec) key.ue key.bearer pdu.now (with_tables r self.now)))
            outputs.new (with_tables r self.now) result }
    {
        let Some(context) = self.contexts.get(&key.ue) else {
            return drop_input(outputs, DropReason::NoContext);
        };
        let Some(found) = context.bearers.get(&key.bearer) else {
            return drop_input(outputs, DropReason::NoContext);
        };
        let bytes = write_f1u_uplink_pdu(alloc, found.uplink, pdu)?;
        outputs.push(Output::Packet {
            to: found.up,
            teid: found.uplink,
            ue: key.ue,
            bearer: key.bearer,
            dir: Dir::Ul,
            count: Tag::Same,
            bytes,
        })?;
        Ok(())
    }
    /// The number of a packet that the radio confirmed is reported; a report's confirmation gives nothing.
    #[tactic(auto, unfolding(unit_defs::specs::Du::confirm))]
    pub fn confirm(
        &self,
        alloc: Global,
        key: RadioKey,
        number: Option<u32>,
        outputs: &mut Outputs,
    ) -> Result<(), StepError>
        requires { IfSome number (λ n. n < 2 ^ 24) }
        ensures { (codec : Codec) (r : OctetDu) (pdu : List ℕ)
            → ((c : DuContext) → find ue_cmp self.now.contexts key.ue ≡ Some c → (octet_way codec).number c.sn pdu ≡ number)
            → IsStep (step_after outputs.old (confirm (octet_way codec) key.ue key.bearer pdu (with_tables r self.now)))
            outputs.new (with_tables r self.now) result }
    {
        let Some(context) = self.contexts.get(&key.ue) else {
            return drop_input(outputs, DropReason::NoContext);
        };
        let Some(found) = context.bearers.get(&key.bearer) else {
            return drop_input(outputs, DropReason::NoContext);
        };
        if number.is_none() {
            return Ok(());
        }
        found.put_status(alloc, key, Tag::Same, Ranges::new(), number, outputs)?;
        Ok(())
    }
}
