//! Control messages: they are put, given and lost, with the lines of it.

ghost use Rattle.std.specs.Prelude.{◌≡◌, ◌<◌, List, ℕ, IfOk, IsSome, OnOk, Some, option_copied, length, not, nat_lt, ◌+◌};
ghost use Rattle.transport_defs.specs.declared.ControlMessage.{ControlMessage};
ghost use Rattle.transport_defs.specs.Links.{control_message, most_control_messages};
ghost use Rattle.links.specs.links_bag.Bags.{message};
ghost use Rattle.tables.specs.Queues.{first_item};
ghost use Rattle.run_defs.specs.Printing.{shown_message};
ghost use Rattle.run_defs.specs.Steps.{put_control};
ghost use Rattle.run_defs.specs.Events.{landed_as, lose_message};
ghost use Rattle.run_links.specs.Told.{Makes, Ends, lost_line};

use crate::lines::Lines;
use crate::network::Network;
use gnb_types::items::Memory;
use gnb_types::names::NodeId;
use gnb_types::octets::Octets;
use gnb_types::reasons::RefuseReason;
use links::bag::Message;
use links::error::LinkError;
use scenario_text::line::{Message as ShownMessage, OutLine};
use transport_defs::ControlMessage;

fn shown_message(number: u32, from: NodeId, to: NodeId, ue: u8, bytes: Octets) -> ShownMessage
    ensures { result ≡ shown_message (λ octets. octets) number (message from to ue bytes) }
{
    ShownMessage {
        number,
        from,
        to,
        ue,
        bytes,
    }
}

fn shown_control_message(number: u32, control_message: Message) -> ShownMessage
    ensures { result ≡ shown_message (λ octets. octets) number control_message }
{
    let ControlMessage {
        from,
        to,
        ue,
        message,
    } = control_message;
    shown_message(number, from, to, ue, message)
}

fn copy_of(octets: &Octets) -> Result<Octets, Memory>
    ensures { IfOk result (λ copy. copy ≡ octets.now) }
{
    let copy = octets.clone()?;
    Ok(copy)
}

/// What is printed where a message is lost, or can't be.
fn lost_line(number: u32, lost: Result<(), LinkError>) -> OutLine
    ensures { result ≡ lost_line number lost }
{
    match lost {
        Ok(()) => OutLine::LostMessage { message: number },
        Err(LinkError::NoSuch) => OutLine::Refused {
            reason: RefuseReason::NoSuch,
        },
        Err(_) => OutLine::Refused {
            reason: RefuseReason::Empty,
        },
    }
}

impl Network {
    /// Whether so many more control messages may be put.
    pub fn has_room(&self, more: usize) -> bool
        ensures { result ≡ not (nat_lt most_control_messages (length self.now.bag.control_messages + more)) }
    {
        self.bag.has_room(more)
    }

    /// Puts a control message. There is room for it.
    pub fn put_control(&mut self, control_message: Message, lines: &mut Lines) -> Result<(), Memory>
        requires { length self.old.bag.control_messages < most_control_messages }
        ensures told { OnOk result (Makes (λ world. put_control world control_message) self.old self.new lines.old lines.new) }
        ensures control_messages { OnOk result (length self.new.bag.control_messages ≡ length self.old.bag.control_messages + 1) }
    {
        let bytes = copy_of(&control_message.message)?;
        let ControlMessage {
            from,
            to,
            ue,
            message,
        } = control_message;
        match self.bag.put(from, to, ue, message) {
            Ok(number) => lines.push(OutLine::PutMessage {
                message: shown_message(number, from, to, ue, bytes),
            }),
            Err(LinkError::Memory) => Err(Memory::told()),
            // There is room.
            Err(_) => unreachable!(),
        }
    }

    /// The control message of this number.
    pub fn control_message(&self, number: u32) -> Option<&Message>
        ensures { option_copied result ≡ control_message self.now.bag number }
    {
        self.bag.control_message(number)
    }

    /// The control message in flight that has the least number.
    pub fn least_in_flight(&self) -> Option<u32>
        ensures { result ≡ first_item self.now.bag.flight }
    {
        self.bag.least()
    }

    /// A control message that was put lands at its receiver.
    pub fn land(&mut self, number: u32, lines: &mut Lines) -> Result<(), Memory>
        requires { IsSome (control_message self.old.bag number) }
        ensures { OnOk result ((l : ControlMessage (List ℕ)) → control_message self.old.bag number ≡ Some l
            → Makes (λ world. landed_as world number l) self.old self.new lines.old lines.new) }
    {
        match self.bag.give(number) {
            Ok(control_message) => lines.push(OutLine::GotMessage {
                message: shown_control_message(number, control_message),
            }),
            Err(LinkError::Memory) => Err(Memory::told()),
            // The message was put, so that it is given as often as one likes.
            Err(_) => unreachable!(),
        }
    }

    /// `lose` of a control message, which is in flight no more.
    pub fn lose_message(&mut self, number: u32, lines: &mut Lines) -> Result<(), Memory>
        ensures { OnOk result (Ends (λ world. lose_message world number) self.old self.new lines.old lines.new) }
    {
        let lost = self.bag.lose(number);
        lines.push(lost_line(number, lost))
    }
}
