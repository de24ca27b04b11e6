//! How a terminal leaves and reaches DUs: a command, its arrival, its return, and what is accepted (TS 38.331, 5.3.5, 5.3.7).

ghost use Rattle.std.specs.Prelude.{◌≡◌, OnOk};
ghost use Rattle.unit_defs.specs.Ue.{obey, arrive, come_back, accept, fail, connect, connect_each, told, UeNode};
ghost use Rattle.unit_defs.specs.octet_defs.Codec.{Codec, octet_way};
ghost use Rattle.unit_messages.specs.steps.Steps.{step_after, IsStep};
ghost use Rattle.ue_node.specs.rows.Records.{record_of, numbered, ArePlanned, IsRecord, IsTerminalOf};

use crate::rows::record::UeRecord;
use crate::rows::says::{drop_input, refuse};
use gnb_types::names::{BearerId, NodeId};
use gnb_types::outputs::Outputs;
use gnb_types::reasons::{DropReason, RefuseReason};
use message_types::Token;
use pdcp_bearers::ue_packets::{Bearer, Terminal};
use std::alloc::Global;
use unit_defs::{TokenKind, UeState};
use unit_messages::MessageCodec;
use unit_messages::steps::StepError;

/// The counter of epochs.
const EPOCHS: u8 = 5;

/// A new connection of each bearer, in their order.
fn connect_each(
    alloc: Global,
    terminal: &Terminal,
    bearers: &mut [Bearer],
    out: &mut Outputs,
) -> Result<(), StepError>
    requires { ArePlanned terminal.now.plan bearers.old }
    ensures step { (codec : Codec) (u : UeNode) → IsTerminalOf u terminal.now → IsStep
        (step_after out.old (connect_each (octet_way codec) u (numbered 1 bearers.old)))
        out.new (numbered 1 bearers.new) result }
    ensures sound { OnOk result (ArePlanned terminal.now.plan bearers.new) }
{
    for number in 0..terminal.plan.bearers {
        let bearer = &mut bearers[usize::from(number)];
        bearer.connect(alloc, terminal, BearerId(number + 1), out)?;
    }
    Ok(())
}

impl UeRecord {
    /// A new connection of all bearers: a status report, all that nothing confirmed, and what waits.
    fn connect(&mut self, alloc: Global, out: &mut Outputs) -> Result<(), StepError>
        requires { IsRecord self.old }
        ensures step { (codec : Codec) → IsStep
            (step_after out.old (connect (octet_way codec) (record_of self.old)))
            out.new (record_of self.new) result }
        ensures sound { OnOk result (IsRecord self.new) }
    {
        let terminal = self.terminal();
        connect_each(alloc, &terminal, self.bearers.as_mut_slice(), out)
    }

    /// A command of an epoch: of the next one, to a terminal that is idle or connected, it is obeyed, and the terminal leaves its radio.
    #[tactic(auto, unfolding(unit_defs::specs::Ue::obey))]
    pub fn obey(&mut self, epoch: u32, goal: NodeId, out: &mut Outputs) -> Result<(), StepError>
        requires { IsRecord self.old }
        ensures step { (codec : Codec) → IsStep
            (step_after out.old (obey (octet_way codec) epoch goal (record_of self.old)))
            out.new (record_of self.new) result }
        ensures sound { OnOk result (IsRecord self.new) }
    {
        let (UeState::Idle | UeState::Connected) = self.state else {
            return drop_input(out, DropReason::Stale);
        };
        if u64::from(epoch) != u64::from(self.epoch) + 1 {
            return drop_input(out, DropReason::Stale);
        }
        self.state = UeState::Accessing;
        self.goal = Some(goal);
        Ok(())
    }

    /// It arrives at the DU of the command: it is connected there, in the next epoch, and says so until it is accepted.
    #[tactic(auto, unfolding(unit_defs::specs::Ue::arrive))]
    pub fn arrive<C: MessageCodec>(
        &mut self,
        alloc: Global,
        codec: &C,
        out: &mut Outputs,
    ) -> Result<(), StepError>
        requires { IsRecord self.old }
        ensures step { IsStep (step_after out.old (arrive (octet_way C.codec) (record_of self.old)))
            out.new (record_of self.new) result }
        ensures sound { OnOk result (IsRecord self.new) }
    {
        let UeState::Accessing = self.state else {
            return refuse(out, RefuseReason::NotAccessing);
        };
        let Some(epoch) = self.epoch.checked_add(1) else {
            return Err(StepError::Spent { counter: EPOCHS });
        };
        self.epoch = epoch;
        self.state = UeState::Connected;
        self.home = self.goal;
        self.token = Some(TokenKind::Complete);
        self.say(alloc, codec, out)?;
        self.connect(alloc, out)
    }

    /// It is back at its home, after it lost its radio or gave up an access: it asks for re-establishment in the next epoch, until it is
    /// accepted.
    #[tactic(auto, unfolding(unit_defs::specs::Ue::come_back))]
    pub fn come_back<C: MessageCodec>(
        &mut self,
        alloc: Global,
        codec: &C,
        out: &mut Outputs,
    ) -> Result<(), StepError>
        requires { IsRecord self.old }
        ensures step { IsStep (step_after out.old (come_back (octet_way C.codec) (record_of self.old)))
            out.new (record_of self.new) result }
        ensures sound { OnOk result (IsRecord self.new) }
    {
        let Some(_) = self.home else {
            return refuse(out, RefuseReason::NoHome);
        };
        let (UeState::Lost | UeState::Accessing) = self.state else {
            return refuse(out, RefuseReason::Busy);
        };
        let Some(epoch) = self.epoch.checked_add(1) else {
            return Err(StepError::Spent { counter: EPOCHS });
        };
        self.epoch = epoch;
        self.state = UeState::Returning;
        self.token = Some(TokenKind::Reestablish);
        self.say(alloc, codec, out)?;
        Ok(())
    }

    /// An epoch is accepted: if it is the terminal's, what it says is no longer repeated, and a return ends.
    #[tactic(auto, unfolding(unit_defs::specs::Ue::accept))]
    pub fn accept(&mut self, alloc: Global, epoch: u32, out: &mut Outputs) -> Result<(), StepError>
        requires { IsRecord self.old }
        ensures step { (codec : Codec) → IsStep
            (step_after out.old (accept (octet_way codec) epoch (record_of self.old)))
            out.new (record_of self.new) result }
        ensures sound { OnOk result (IsRecord self.new) }
    {
        if epoch != self.epoch {
            return drop_input(out, DropReason::Stale);
        }
        self.token = None;
        let UeState::Returning = self.state else {
            return Ok(());
        };
        self.state = UeState::Connected;
        self.connect(alloc, out)
    }

    /// Its radio fails.
    #[tactic(auto, unfolding(unit_defs::specs::Ue::fail))]
    pub fn fail(&mut self, out: &mut Outputs) -> Result<(), StepError>
        requires { IsRecord self.old }
        ensures step { (codec : Codec) → IsStep
            (step_after out.old (fail (octet_way codec) (record_of self.old)))
            out.new (record_of self.new) result }
        ensures sound { OnOk result (IsRecord self.new) }
    {
        let UeState::Connected = self.state else {
            return refuse(out, RefuseReason::NoRadio);
        };
        self.state = UeState::Lost;
        Ok(())
    }

    /// A token comes from a DU. One of another terminal is unexpected, and so is one that a terminal says.
    pub fn told(&mut self, alloc: Global, token: Token, out: &mut Outputs) -> Result<(), StepError>
        requires { IsRecord self.old }
        ensures step { (codec : Codec) → IsStep
            (step_after out.old (told (octet_way codec) token (record_of self.old)))
            out.new (record_of self.new) result }
        ensures sound { OnOk result (IsRecord self.new) }
    {
        match token {
            Token::Command { ue, epoch, gnb, du } if ue.0 == self.plan.ue.0 => {
                self.obey(epoch, NodeId::Du(gnb, du), out)
            }
            Token::Accepted { ue, epoch } if ue.0 == self.plan.ue.0 => {
                self.accept(alloc, epoch, out)
            }
            Token::Command { .. }
            | Token::Complete { .. }
            | Token::Reestablish { .. }
            | Token::Accepted { .. } => drop_input(out, DropReason::Unexpected),
        }
    }
}
