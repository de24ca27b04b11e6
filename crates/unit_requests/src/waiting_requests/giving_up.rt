//! A release that isn't needed, since the setup before it failed.

ghost use Rattle.std.specs.Prelude.{◌≡◌};
ghost use Rattle.unit_defs.specs.Transactions.{waits_at, with_waiting};
ghost use Rattle.unit_defs.specs.CuCp.{is_cu_up_release, without_release};
ghost use Rattle.unit_defs.specs.octet_defs.Codec.{Codec, octet_way};
ghost use Rattle.unit_messages.specs.Messages.{message_as};

use crate::{Requests, Waiting};
use gnb_types::keys::Channel;
use message_types::E1Message;
use tables::queue::Queue;
use unit_messages::Message;

fn is_cu_up_release(message: &Message) -> bool
    ensures { (codec : Codec) → result
        ≡ is_cu_up_release (octet_way codec) (message_as message.now) }
{
    match message {
        Message::E1(E1Message::BearerContextReleaseCommand { .. }) => true,
        Message::E1(
            E1Message::E1SetupRequest { .. }
            | E1Message::E1SetupResponse { .. }
            | E1Message::BearerContextSetupRequest { .. }
            | E1Message::BearerContextSetupResponse { .. }
            | E1Message::BearerContextSetupFailure { .. }
            | E1Message::BearerContextModificationRequest { .. }
            | E1Message::BearerContextModificationResponse { .. }
            | E1Message::BearerContextModificationFailure { .. }
            | E1Message::BearerContextReleaseComplete { .. },
        )
        | Message::F1(_)
        | Message::Xn(_)
        | Message::Core(_)
        | Message::Rrc(_) => false,
    }
}

fn is_release(waiting: &Waiting) -> bool
    ensures { (codec : Codec) → result ≡ is_cu_up_release (octet_way codec) waiting.now.message }
{
    is_cu_up_release(&waiting.message)
}

/// The release that waits first, if one does, is given up.
fn take_release(queue: &mut Queue<Waiting>)
    ensures { (codec : Codec) → queue.new ≡ without_release (octet_way codec) queue.old }
{
    let Some(first) = queue.head() else {
        return;
    };
    if !is_release(first) {
        return;
    }
    drop(queue.take());
}

/// The release of a CU-UP that waits first on this channel, if one does, is given up.
pub fn give_up_release(requests: &mut Requests, channel: &Channel)
    ensures { (codec : Codec) → requests.new ≡ with_waiting requests.old channel.now
        (without_release (octet_way codec) (waits_at requests.old channel.now)) }
{
    let Some(queue) = requests.waiting.get_mut(channel) else {
        return;
    };
    take_release(queue);
    if !queue.is_empty() {
        return;
    }
    drop(requests.waiting.take(channel));
}
