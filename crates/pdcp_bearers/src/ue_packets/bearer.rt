//! A bearer of a terminal.

ghost use Rattle.std.specs.Prelude.{◌≡◌, ℕ, ◌≤◌, ◌++◌, List, length, IfOk, OnOk};
ghost use Rattle.packet_pool.specs.declared.region.TheConstants.{BLOCK};
ghost use Rattle.gnb_types.specs.declared.outputs.Output.TheVariants as outs;
ghost use Rattle.gnb_types.specs.declared.names.Dir.TheVariants.{Ul as up};
ghost use Rattle.pdcp_defs.specs.Counts.{near_count, count_below};
ghost use Rattle.pdcp_defs.specs.Receivers.{deliver as handed_up};
ghost use Rattle.unit_defs.specs.Ue.{number_waiting, connect_bearer, handed, took, confirmed, unconfirmed_outputs};
ghost use Rattle.unit_defs.specs.Ways.{packet_content, report_content};
ghost use Rattle.unit_defs.specs.octet_defs.Codec.{Codec, octet_way};
ghost use Rattle.unit_defs.specs.octet_defs.Reading.{bits_of};
ghost use Rattle.unit_defs.specs.octet_defs.Writing.{outputs_of};
ghost use Rattle.unit_messages.specs.steps.Steps.{step_after, IsStep};
ghost use Rattle.pdcp_bearers.specs.ue_bearers.Senders.{new_sender_state, IsPacket};
ghost use Rattle.pdcp_bearers.specs.ue_bearers.Receivers.{new_receiver_state};
ghost use Rattle.pdcp_bearers.specs.ue_packets.Bearers.{kept, terminal_of, IsOf, offered_at};

use crate::ue_bearers::{Delivered, Numbered, Receiver, Reception, Sender};
use crate::ue_packets::terminal::Terminal;
use gnb_types::items::Memory;
use gnb_types::keys::EntityKey;
use gnb_types::names::{BearerId, Dir, UeId};
use gnb_types::octets::Octets;
use gnb_types::outputs::{Output, Outputs, Tag};
use gnb_types::plans::Plan;
use gnb_types::reasons::{DropReason, HeldReason, RefuseReason};
use gnb_types::results::beside;
use pdcp::{PACKET_LIMIT, write_pdu, write_report};
use std::alloc::Global;
use unit_messages::steps::StepError;

/// What a terminal keeps of a bearer.
#[derive(Drop)]
pub struct Bearer {
    pub uplink: Sender,
    pub downlink: Receiver,
}

/// A PDU on the radio of the terminal's epoch.
fn on_air(terminal: &Terminal, bearer: BearerId, tag: Tag, pdu: Octets) -> Output
    ensures { result ≡ outs.Radio terminal.now.plan.ue bearer up terminal.now.epoch tag pdu }
{
    Output::Radio {
        ue: terminal.plan.ue,
        bearer,
        dir: Dir::Ul,
        epoch: terminal.epoch,
        count: tag,
        bytes: pdu,
    }
}

impl Bearer {
    /// A bearer of a new terminal: nothing waits, and COUNT 0 is given and awaited. It takes the blocks for its packets.
    pub fn new(alloc: Global, plan: &Plan, bearer: BearerId) -> Result<Bearer, Memory>
        requires least { 4 ≤ plan.now.quota }
        requires most { plan.now.quota ≤ 4096 }
        ensures uplink { IfOk result (λ b. b.uplink ≡ new_sender_state plan.now.sn plan.now.quota) }
        ensures downlink { IfOk result (λ b. b.downlink ≡ new_receiver_state plan.now.sn plan.now.quota) }
    {
        let ue = plan.ue;
        let up = EntityKey {
            ue,
            bearer,
            dir: Dir::Ul,
        };
        let down = EntityKey {
            ue,
            bearer,
            dir: Dir::Dl,
        };
        let uplink = Sender::new(alloc, up, plan.sn, plan.quota)?;
        let downlink = Receiver::new(alloc, down, plan.sn, plan.quota);
        let (downlink, uplink) = beside(downlink, uplink)?;
        Ok(Bearer { uplink, downlink })
    }

    /// While the terminal is connected, packets that wait get COUNTs and are sent, as long as the window has room.
    pub fn number_waiting(
        &mut self,
        alloc: Global,
        terminal: &Terminal,
        bearer: BearerId,
        out: &mut Outputs,
    ) -> Result<(), StepError>
        requires { IsOf terminal.now self.old }
        ensures step { (codec : Codec) → IsStep (step_after out.old
            (number_waiting (octet_way codec) (terminal_of terminal.now) bearer (kept self.old)))
            out.new (kept self.new) result }
        ensures of { OnOk result (IsOf terminal.now self.new) }
    {
        if !terminal.is_connected() {
            return Ok(());
        }
        while let Some(Numbered { count, pdu }) = self.uplink.number(alloc)? {
            out.push(on_air(terminal, bearer, Tag::Own(count), pdu))?;
        }
        Ok(())
    }

    /// All that nothing confirmed is sent again.
    fn send_unconfirmed(
        &self,
        alloc: Global,
        terminal: &Terminal,
        bearer: BearerId,
        out: &mut Outputs,
    ) -> Result<(), Memory>
        requires { IsOf terminal.now self.now }
        ensures { (codec : Codec) → OnOk result (out.new ≡ out.old ++ outputs_of
            (unconfirmed_outputs (octet_way codec) (terminal_of terminal.now) bearer
            (kept self.now))) }
    {
        let mut from = 0;
        while let Some((count, packet)) = self.uplink.unconfirmed(from) {
            let pdu = write_pdu(alloc, terminal.plan.sn, count, packet)?;
            out.push(on_air(terminal, bearer, Tag::Own(count), pdu))?;
            from = count + 1;
        }
        Ok(())
    }

    /// A new connection: a status report, all that nothing confirmed, and what waits.
    pub fn connect(
        &mut self,
        alloc: Global,
        terminal: &Terminal,
        bearer: BearerId,
        out: &mut Outputs,
    ) -> Result<(), StepError>
        requires { IsOf terminal.now self.old }
        ensures step { (codec : Codec) → IsStep (step_after out.old
            (connect_bearer (octet_way codec) (terminal_of terminal.now) bearer (kept self.old)))
            out.new (kept self.new) result }
        ensures of { OnOk result (IsOf terminal.now self.new) }
    {
        let (fmc, bits) = self.downlink.report(alloc)?;
        let pdu = write_report(alloc, fmc, &bits)?;
        out.push(on_air(terminal, bearer, Tag::Absent, pdu))?;
        self.send_unconfirmed(alloc, terminal, bearer, out)?;
        self.number_waiting(alloc, terminal, bearer, out)
    }

    /// A packet is offered: it is refused for its size, and where the quota is used.
    pub fn offer(
        &mut self,
        alloc: Global,
        terminal: &Terminal,
        bearer: BearerId,
        packet: Octets,
        out: &mut Outputs,
    ) -> Result<(), StepError>
        requires some { 1 ≤ length packet }
        requires of { IsOf terminal.now self.old }
        ensures step { (codec : Codec) → IsStep (step_after out.old
            (offered_at (octet_way codec) (terminal_of terminal.now) bearer packet (kept self.old)))
            out.new (kept self.new) result }
        ensures of { OnOk result (IsOf terminal.now self.new) }
    {
        if packet.len() > PACKET_LIMIT {
            out.push(Output::No(RefuseReason::Size))?;
            return Ok(());
        }
        if self.uplink.used() >= u32::from(terminal.plan.quota) {
            out.push(Output::No(RefuseReason::Quota))?;
            return Ok(());
        }
        self.uplink.offer(packet)?;
        self.number_waiting(alloc, terminal, bearer, out)
    }

    /// Delivers in order what is stored.
    fn deliver(
        &mut self,
        alloc: Global,
        terminal: &Terminal,
        bearer: BearerId,
        out: &mut Outputs,
    ) -> Result<(), StepError>
        requires { IsOf terminal.now self.old }
        ensures step { (codec : Codec) → IsStep (step_after out.old
            (handed (octet_way codec) (terminal_of terminal.now) bearer (kept self.old)
            (handed_up (kept self.old).receiver))) out.new (kept self.new) result }
        ensures of { OnOk result (IsOf terminal.now self.new) }
    {
        while let Some(Delivered { count, packet }) = self.downlink.deliver(alloc)? {
            out.push(Output::Deliver {
                ue: terminal.plan.ue,
                bearer,
                dir: Dir::Dl,
                count,
                packet,
            })?;
        }
        Ok(())
    }

    /// A packet comes from the radio, with its number.
    pub fn take_packet(
        &mut self,
        alloc: Global,
        terminal: &Terminal,
        bearer: BearerId,
        number: u32,
        packet: &[u8],
        out: &mut Outputs,
    ) -> Result<(), StepError>
        requires short { length packet.now ≤ BLOCK }
        requires of { IsOf terminal.now self.old }
        ensures step { (codec : Codec) → IsStep (step_after out.old
            (took (octet_way codec) (terminal_of terminal.now) bearer (packet_content
            (near_count terminal.now.plan.sn (kept self.old).receiver.deliv number) packet.now)
            (kept self.old))) out.new (kept self.new) result }
        ensures of { OnOk result (IsOf terminal.now self.new) }
    {
        match self.downlink.take(number, packet) {
            Reception::Duplicate => {
                out.push(Output::Drop(DropReason::Duplicate))?;
                Ok(())
            }
            Reception::Ahead => {
                out.push(Output::Held(HeldReason::Ahead))?;
                Ok(())
            }
            Reception::Stored => self.deliver(alloc, terminal, bearer, out),
        }
    }

    /// A status report comes from the radio.
    pub fn take_report(
        &mut self,
        alloc: Global,
        terminal: &Terminal,
        bearer: BearerId,
        fmc: u32,
        bits: &[u8],
        out: &mut Outputs,
    ) -> Result<(), StepError>
        requires { IsOf terminal.now self.old }
        ensures step { (codec : Codec) → IsStep (step_after out.old
            (took (octet_way codec) (terminal_of terminal.now) bearer
            (report_content fmc (bits_of bits.now)) (kept self.old)))
            out.new (kept self.new) result }
        ensures of { OnOk result (IsOf terminal.now self.new) }
    {
        self.uplink.confirm_report(fmc, bits);
        self.number_waiting(alloc, terminal, bearer, out)
    }

    /// The PDU of a packet was confirmed on the radio, by its number.
    pub fn confirm(
        &mut self,
        alloc: Global,
        terminal: &Terminal,
        bearer: BearerId,
        number: u32,
        out: &mut Outputs,
    ) -> Result<(), StepError>
        requires { IsOf terminal.now self.old }
        ensures step { (codec : Codec) (packet : List ℕ) → IsStep (step_after out.old
            (confirmed (octet_way codec) (terminal_of terminal.now) bearer (packet_content
            (count_below terminal.now.plan.sn (kept self.old).sender.next number) packet)
            (kept self.old))) out.new (kept self.new) result }
        ensures of { OnOk result (IsOf terminal.now self.new) }
    {
        self.uplink.confirm_to(number);
        self.number_waiting(alloc, terminal, bearer, out)
    }
}
