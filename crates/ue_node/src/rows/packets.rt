//! What a terminal does with packets: those that it is offered, those that the radio brings, and those that it confirms.

ghost use Rattle.std.specs.Prelude.{◌≡◌, ◌≤◌, OnOk, length};
ghost use Rattle.pdcp.specs.Pdus.{content_of};
ghost use Rattle.unit_defs.specs.Ue.{offer, take, confirm};
ghost use Rattle.unit_defs.specs.octet_defs.Codec.{Codec, octet_way};
ghost use Rattle.unit_defs.specs.octet_defs.Reading.{content_by, count_received_in, count_confirmed_in, bearer_at};
ghost use Rattle.unit_messages.specs.steps.Steps.{step_after, IsStep};
ghost use Rattle.ue_node.specs.rows.Records.{record_of, IsRecord, IsSizedPdu};

use crate::rows::record::{UeRecord, index_of};
use crate::rows::says::drop_input;
use gnb_types::names::BearerId;
use gnb_types::octets::Octets;
use gnb_types::outputs::Outputs;
use gnb_types::reasons::DropReason;
use pdcp::pdu::Pdu;
use std::alloc::Global;
use unit_messages::steps::StepError;

impl UeRecord {
    /// A packet from above: it waits, and is numbered and sent while the terminal is connected. It is refused for its size, and where
    /// the quota is used.
    pub fn offer(
        &mut self,
        alloc: Global,
        bearer: BearerId,
        packet: Octets,
        out: &mut Outputs,
    ) -> Result<(), StepError>
        requires some { 1 ≤ length packet }
        requires sound { IsRecord self.old }
        ensures step { (codec : Codec) → IsStep
            (step_after out.old (offer (octet_way codec) bearer packet (record_of self.old)))
            out.new (record_of self.new) result }
        ensures sound { OnOk result (IsRecord self.new) }
    {
        let terminal = self.terminal();
        let Some(index) = index_of(bearer, self.bearers.len()) else {
            return drop_input(out, DropReason::NoContext);
        };
        let found = &mut self.bearers[index];
        found.offer(alloc, &terminal, bearer, packet, out)
    }

    /// A PDU comes from the radio: a packet is delivered in its order, and a report confirms.
    pub fn take(
        &mut self,
        alloc: Global,
        bearer: BearerId,
        pdu: Pdu<'_>,
        out: &mut Outputs,
    ) -> Result<(), StepError>
        requires sized { IsSizedPdu (content_of pdu) }
        requires sound { IsRecord self.old }
        ensures step { (codec : Codec) → IsStep
            (step_after out.old (take (octet_way codec) bearer (content_by (count_received_in
            self.old.plan.sn (bearer_at codec (record_of self.old) bearer)) (content_of pdu.entry))
            (record_of self.old))) out.new (record_of self.new) result }
        ensures sound { OnOk result (IsRecord self.new) }
    {
        let terminal = self.terminal();
        let Some(index) = index_of(bearer, self.bearers.len()) else {
            return drop_input(out, DropReason::NoContext);
        };
        let found = &mut self.bearers[index];
        match pdu {
            Pdu::Packet { sn, packet } => {
                found.take_packet(alloc, &terminal, bearer, sn, packet, out)
            }
            Pdu::Report { fmc, bits } => {
                found.take_report(alloc, &terminal, bearer, fmc, bits, out)
            }
        }
    }

    /// A PDU was confirmed on the radio: all packets up to its number are.
    pub fn confirm(
        &mut self,
        alloc: Global,
        bearer: BearerId,
        pdu: Pdu<'_>,
        out: &mut Outputs,
    ) -> Result<(), StepError>
        requires { IsRecord self.old }
        ensures step { (codec : Codec) → IsStep
            (step_after out.old (confirm (octet_way codec) bearer (content_by (count_confirmed_in
            self.old.plan.sn (bearer_at codec (record_of self.old) bearer)) (content_of pdu.entry))
            (record_of self.old))) out.new (record_of self.new) result }
        ensures sound { OnOk result (IsRecord self.new) }
    {
        let terminal = self.terminal();
        let Some(index) = index_of(bearer, self.bearers.len()) else {
            return drop_input(out, DropReason::NoContext);
        };
        let found = &mut self.bearers[index];
        match pdu {
            Pdu::Packet { sn, .. } => found.confirm(alloc, &terminal, bearer, sn, out),
            Pdu::Report { .. } => Ok(()),
        }
    }
}
