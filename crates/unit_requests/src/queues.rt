//! What waits for a peer and terminal, the oldest first.

ghost use Rattle.std.specs.Prelude.{◌≡◌, [], ◌∷◌, ◌++◌, not, OnOk, OnErr};
ghost use Rattle.unit_defs.specs.Transactions.{is_empty, waits_at, with_waiting};
ghost use Rattle.unit_requests.specs.Requests.{TakesWaiting};

use crate::requests::Requests;
use crate::waiting::Waiting;
use gnb_types::items::Memory;
use gnb_types::keys::Channel;
use std::alloc::Global;
use tables::queue::Queue;

impl Requests {
    /// Whether a request waits on this channel.
    #[tactic(auto, using(crate::proofs::Waits::empty_length), unfolding(unit_defs::specs::Transactions::waits_at, tables::specs::Tables::at))]
    pub(crate) fn has_waiting(&self, channel: &Channel) -> bool
        ensures { result ≡ not (is_empty (waits_at self.now channel.now)) }
    {
        match self.waiting.get(channel) {
            Some(queue) => !queue.is_empty(),
            None => false,
        }
    }

    /// A request more waits on this channel, after the others.
    pub(crate) fn wait(
        &mut self,
        alloc: Global,
        channel: Channel,
        waiting: Waiting,
    ) -> Result<(), Memory>
        ensures { OnOk result
            (self.new ≡ with_waiting self.old channel (waits_at self.old channel ++ waiting ∷ [])) }
    {
        if let Some(queue) = self.waiting.get_mut(&channel) {
            queue.push(waiting)?;
            return Ok(());
        }
        let mut queue = Queue::new(alloc);
        queue.push(waiting)?;
        self.waiting.put(channel, queue)?;
        Ok(())
    }

    /// Takes what waits longest on this channel.
    pub(crate) fn take_waiting(&mut self, channel: &Channel) -> Option<Waiting>
        ensures { TakesWaiting self.old channel.now self.new result }
    {
        let queue = self.waiting.get_mut(channel)?;
        let waiting = queue.take()?;
        if !queue.is_empty() {
            return Some(waiting);
        }
        drop(self.waiting.take(channel));
        Some(waiting)
    }
}
