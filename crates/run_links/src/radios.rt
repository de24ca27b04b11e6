//! Radios: items are put, carried and confirmed, with the lines of it; and all that stands on those of a terminal is lost.

ghost use Rattle.std.specs.Prelude.{◌≡◌, ◌==◌, ◌∷◌, List, ℕ, IsSome, OnOk, Some, option_copied, false};
ghost use Rattle.gnb_types.specs.Orders.{ue_cmp, entity_cmp};
ghost use Rattle.tables.specs.Tables.{find, at};
ghost use Rattle.transport_defs.specs.declared.Item.{Item};
ghost use Rattle.transport_defs.specs.Links.{silent};
ghost use Rattle.links.specs.Radios.{uncarried, oldest_carried, failed};
ghost use Rattle.scenario_text.specs.declared.line.OutLine.{OutLine as ShownLine};
ghost use Rattle.unit_defs.specs.octet_defs.Codec.{Codec};
ghost use Rattle.run_defs.specs.Conditions.{epoch_in};
ghost use Rattle.run_defs.specs.UnitRuns.{Meaning, Records, unit_world};
ghost use Rattle.run_defs.specs.Steps.{put_on_radio, lose_radios, reconnect, epoch_now, same_epoch};
ghost use Rattle.run_links.specs.Networks.{OctetCore, OctetWorld, state_of};
ghost use Rattle.run_defs.specs.Events.{carried_off, confirmed_off, leaves};
ghost use Rattle.run_links.specs.Told.{Makes, GoesTo, lose_one};

use crate::lines::{Lines, radio_link, show, show_taken};
use crate::network::Network;
use gnb_types::items::Memory;
use gnb_types::keys::EntityKey;
use gnb_types::names::UeId;
use links::error::LinkError;
use links::items::Item;
use scenario_text::line::OutLine;

/// Whether two epochs, or none, are the same.
fn same_epoch(a: Option<u32>, b: Option<u32>) -> bool
    ensures { (world : OctetWorld) → result ≡ same_epoch world a b }
{
    match (a, b) {
        (None, None) => true,
        (Some(a), Some(b)) => a == b,
        _ => false,
    }
}

impl Network {
    /// Puts an item on the radio of its bearer and direction. Where that isn't connected in this epoch the item is lost.
    pub fn put_on_radio(&mut self, epoch: u32, item: Item, lines: &mut Lines) -> Result<(), Memory>
        ensures told { OnOk result (Makes (λ world. put_on_radio world epoch item) self.old self.new lines.old lines.new) }
        ensures bag { self.new.bag ≡ self.old.bag }
    {
        let link = radio_link(item.key, epoch);
        lines.push(OutLine::Put {
            link,
            item: show(&item)?,
        })?;
        if self.radios.put(epoch, item)? {
            return Ok(());
        }
        lines.push(OutLine::Lost { link, items: 1 })
    }

    /// The epoch in which the radios of a terminal are connected, if they are.
    pub fn epoch(&self, ue: UeId) -> Option<u32>
        ensures { result ≡ find ue_cmp self.now.radios.connected ue }
    {
        self.radios.epoch(ue)
    }

    /// The epoch that lines show of the radios of a terminal: 0 where they aren't connected.
    pub fn shown_epoch(&self, ue: UeId) -> u32
        ensures { result ≡ epoch_in (find ue_cmp self.now.radios.connected ue) }
    {
        match self.epoch(ue) {
            Some(epoch) => epoch,
            None => 0,
        }
    }

    /// The oldest item of a radio that isn't carried.
    #[tactic(auto, using(crate::proofs::Carrying::head_shows, crate::proofs::Carrying::head_refuses))]
    pub fn uncarried(&self, key: EntityKey) -> Option<&Item>
        ensures { option_copied result ≡ uncarried (at entity_cmp silent self.now.radios.radios key) }
    {
        match self.radios.head(key.ue, key.bearer, key.dir) {
            Ok(item) => Some(item),
            Err(_) => None,
        }
    }

    /// The oldest item of a radio that is carried.
    pub fn carried(&self, key: EntityKey) -> Option<&Item>
        ensures { option_copied result ≡ oldest_carried (at entity_cmp silent self.now.radios.radios key) }
    {
        self.radios.carried(key.ue, key.bearer, key.dir)
    }

    /// The oldest item that isn't carried is carried. There is one.
    #[tactic(auto, using(crate::proofs::Carrying::carries_one))]
    pub fn carry_off(&mut self, key: EntityKey, lines: &mut Lines) -> Result<(), Memory>
        requires { IsSome (uncarried (at entity_cmp silent self.old.radios.radios key)) }
        ensures told { OnOk result ((item : Item (List ℕ)) → uncarried (at entity_cmp silent self.old.radios.radios key) ≡ Some item
            → Makes (λ world. carried_off world key item) self.old self.new lines.old lines.new) }
        ensures bag { self.new.bag ≡ self.old.bag }
    {
        let link = radio_link(key, self.shown_epoch(key.ue));
        match self.radios.carry(key.ue, key.bearer, key.dir) {
            Ok(item) => lines.push(OutLine::Got {
                link,
                item: show_taken(item),
            }),
            Err(LinkError::Memory) => Err(Memory::told()),
            // An item stands there.
            Err(_) => unreachable!(),
        }
    }

    /// The oldest carried item is confirmed.
    pub fn confirm_off(&mut self, key: EntityKey)
        ensures told { (item : Item (List ℕ)) (rest : List (Item (List ℕ))) (lines : List ShownLine)
            → (at entity_cmp silent self.old.radios.radios key).items ≡ item ∷ rest
            → ((at entity_cmp silent self.old.radios.radios key).carried == 0) ≡ false
            → Makes (λ world. confirmed_off world key rest) self.old self.new lines lines }
        ensures bag { self.new.bag ≡ self.old.bag }
    {
        drop(self.radios.confirm(key.ue, key.bearer, key.dir));
    }

    /// Where the radios of a terminal are connected, all that stands on them is lost.
    pub fn lose_radios(&mut self, ue: UeId, lines: &mut Lines) -> Result<(), Memory>
        ensures told { OnOk result (Makes (λ world. lose_radios world ue) self.old self.new lines.old lines.new) }
        ensures bag { OnOk result (self.new.bag ≡ self.old.bag) }
    {
        let Some(epoch) = self.radios.epoch(ue) else {
            return Ok(());
        };
        while let Some(key) = self.radios.first_of(ue) {
            self.lose_radio(epoch, key, lines)?;
        }
        Ok(())
    }

    /// All that stands on a radio is lost.
    fn lose_radio(&mut self, epoch: u32, key: EntityKey, lines: &mut Lines) -> Result<(), Memory>
        ensures told { OnOk result (Makes (lose_one epoch key) self.old self.new lines.old lines.new) }
        ensures rest { self.new ≡ record self.old { radios = failed self.old.radios key } }
    {
        let items = self.radios.fail(key.ue, key.bearer, key.dir);
        if items > 0 {
            let link = radio_link(key, epoch);
            return lines.push(OutLine::Lost { link, items });
        }
        Ok(())
    }

    /// The radios of a terminal follow it: where its epoch on air is another one now, what stands on them is lost.
    pub fn reconnect(&mut self, ue: UeId, now: Option<u32>, lines: &mut Lines) -> Result<(), Memory>
        ensures told { OnOk result ((codec : Codec) (answer : Meaning) (units : Records) (core : OctetCore)
            → epoch_now (unit_world codec answer) (state_of units core self.old) ue ≡ now
            → GoesTo lines.old (reconnect (unit_world codec answer) ue (state_of units core self.old)) lines.new (state_of units core self.new)) }
        ensures bag { OnOk result (self.new.bag ≡ self.old.bag) }
    {
        if same_epoch(self.radios.epoch(ue), now) {
            return Ok(());
        }
        self.lose_radios(ue, lines)?;
        self.radios.connect(ue, now);
        Ok(())
    }

    /// A terminal is released: what stands on its radios is lost, and it is gone.
    pub fn leave(&mut self, ue: UeId, lines: &mut Lines) -> Result<(), Memory>
        ensures told { OnOk result (Makes (λ world. leaves world ue) self.old self.new lines.old lines.new) }
        ensures bag { OnOk result (self.new.bag ≡ self.old.bag) }
    {
        self.lose_radios(ue, lines)?;
        self.radios.connect(ue, None);
        self.gone.push(ue)
    }
}
