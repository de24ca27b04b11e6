//! What a unit puts out in a step.

ghost use Rattle.std.specs.Prelude.{◌≡◌, ◌+◌, ◌≤◌, ◌∷◌, [], map, OnOk, length};
ghost use Rattle.transport_defs.specs.Links.{most_control_messages};
ghost use Rattle.run_defs.specs.Lines.{delivers};
ghost use Rattle.run_defs.specs.States.{goes};
ghost use Rattle.run_defs.specs.Steps.{count_beside, noted, delivered, put_on_tunnel, put_on_radio, put_out, put_out_all, too_many_control_messages};
ghost use Rattle.run_defs.specs.UnitRuns.{Records, put_of};
ghost use Rattle.run_links.specs.Networks.{OctetWorld, OctetCore, state_of, is_control_message, control_messages_in};
ghost use Rattle.run_links.specs.Told.{Makes};

use crate::lines::Lines;
use crate::network::Network;
use gnb_types::items::Memory;
use gnb_types::keys::{EntityKey, TunnelEnd};
use gnb_types::names::NodeId;
use gnb_types::octets::Octets;
use gnb_types::outputs::{Output, Outputs, Tag};
use links::bag::Message;
use links::items::Item;
use scenario_text::line::OutLine;

/// The COUNT beside an item: none, the one that the unit gives, or that of the item which it has just taken.
fn count_beside(tag: Tag, taken: Option<u32>) -> Option<u32>
    ensures { result ≡ count_beside tag taken }
{
    match tag {
        Tag::Absent => None,
        Tag::Own(count) => Some(count),
        Tag::Same => taken,
    }
}

fn is_control(output: &Output) -> bool
    ensures { result ≡ is_control_message output.now }
{
    matches!(output, Output::Control { .. })
}

/// How many control messages there are among outputs.
fn control_messages_in(outputs: &Outputs) -> usize
    ensures { result ≡ control_messages_in outputs.now }
{
    outputs
        .as_slice()
        .iter()
        .filter(|output| is_control(output))
        .count()
}

impl Network {
    /// Whether there isn't room for the control messages among these outputs.
    pub fn too_many_control_messages(&self, outputs: &Outputs) -> bool
        ensures { (world : OctetWorld) (units : Records) (core : OctetCore)
            → result ≡ too_many_control_messages world (map put_of outputs.now) (state_of units core self.now) }
    {
        !self.has_room(control_messages_in(outputs))
    }

    /// One output of a unit.
    pub fn put_out(
        &mut self,
        node: NodeId,
        taken: Option<u32>,
        output: Output,
        lines: &mut Lines,
    ) -> Result<(), Memory>
        requires { length self.old.bag.control_messages + control_messages_in (output ∷ []) ≤ most_control_messages }
        ensures told { OnOk result (Makes (λ world. put_out world node taken (put_of output)) self.old self.new lines.old lines.new) }
        ensures control_messages { OnOk result (length self.new.bag.control_messages ≡ length self.old.bag.control_messages + control_messages_in (output ∷ [])) }
    {
        match output {
            Output::Control { to, ue, bytes } => self.put_control(
                Message {
                    from: node,
                    to,
                    ue,
                    message: bytes,
                },
                lines,
            ),
            Output::Packet {
                to,
                teid,
                ue,
                bearer,
                dir,
                count,
                bytes,
            } => self.put_packet(
                TunnelEnd { node: to, teid },
                count,
                Item {
                    key: EntityKey { ue, bearer, dir },
                    count: count_beside(count, taken),
                    content: bytes,
                },
                lines,
            ),
            Output::Radio {
                ue,
                bearer,
                dir,
                epoch,
                count,
                bytes,
            } => self.put_pdu(
                epoch,
                count,
                Item {
                    key: EntityKey { ue, bearer, dir },
                    count: count_beside(count, taken),
                    content: bytes,
                },
                lines,
            ),
            Output::Deliver {
                ue,
                bearer,
                dir,
                count,
                packet,
            } => self.deliver_packet(EntityKey { ue, bearer, dir }, count, packet, lines),
            Output::Drop(reason) => lines.push(OutLine::Drop { node, reason }),
            Output::Held(_) | Output::No(_) => Ok(()),
            Output::Opened(teid) => self.open(TunnelEnd { node, teid }),
            Output::Closed(teid) => self.close(TunnelEnd { node, teid }, lines),
            Output::FailedUe { ue, cause } => lines.push(OutLine::Failed { node, ue, cause }),
        }
    }

    fn put_packet(
        &mut self,
        end: TunnelEnd,
        tag: Tag,
        item: Item,
        lines: &mut Lines,
    ) -> Result<(), Memory>
        ensures told { OnOk result (Makes (λ world s. put_on_tunnel world end item (noted item.key tag s)) self.old self.new lines.old lines.new) }
        ensures bag { OnOk result (self.new.bag ≡ self.old.bag) }
    {
        self.note(item.key, tag)?;
        self.put_on_tunnel(end, item, lines)
    }

    fn put_pdu(&mut self, epoch: u32, tag: Tag, item: Item, lines: &mut Lines) -> Result<(), Memory>
        ensures told { OnOk result (Makes (λ world s. put_on_radio world epoch item (noted item.key tag s)) self.old self.new lines.old lines.new) }
        ensures bag { OnOk result (self.new.bag ≡ self.old.bag) }
    {
        self.note(item.key, tag)?;
        self.put_on_radio(epoch, item, lines)
    }

    fn deliver_packet(
        &mut self,
        key: EntityKey,
        count: u32,
        packet: Octets,
        lines: &mut Lines,
    ) -> Result<(), Memory>
        ensures told { OnOk result (Makes (λ world s. goes (delivers key count packet ∷ []) (delivered world key s)) self.old self.new lines.old lines.new) }
        ensures bag { OnOk result (self.new.bag ≡ self.old.bag) }
    {
        self.deliver(key)?;
        lines.push(OutLine::Deliver {
            ue: key.ue,
            bearer: key.bearer,
            dir: key.dir,
            count,
            packet,
        })
    }

    /// All outputs of a step, in order. There is room for their control messages.
    pub fn put_out_all(
        &mut self,
        node: NodeId,
        taken: Option<u32>,
        outputs: Outputs,
        lines: &mut Lines,
    ) -> Result<(), Memory>
        requires { length self.old.bag.control_messages + control_messages_in outputs ≤ most_control_messages }
        ensures { OnOk result (Makes (λ world. put_out_all world node taken (map put_of outputs)) self.old self.new lines.old lines.new) }
    {
        for output in outputs {
            self.put_out(node, taken, output, lines)?;
        }
        Ok(())
    }
}
